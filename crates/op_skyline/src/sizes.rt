use ch_cells::Listed;

/// All that the policy and the program of a `Skyline` hang on.
#[derive(Drop)]
pub struct Sizes {
    /// How many words a row is given by: pass, side and bit, and then those of the row.
    pub width: u32,
    /// How many points are stored at most.
    pub points: u32,
    /// Which words are the dimensions of a row's point.
    pub places: Listed<u32>,
    /// Of each dimension whether a greater word is better.
    pub max: Listed<bool>,
}
