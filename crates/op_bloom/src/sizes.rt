/// All that the Bloom filters of two sides hang on.
#[derive(Clone, Copy)]
pub struct Sizes {
    /// How many words a row is given by: pass, side and bit, and then those of the row.
    pub width: u32,
    /// How many hashes, each with an array.
    pub hashes: u32,
    /// How many cells a filter has. An array holds the filter of side 0 and then that of side 1.
    pub cells: u32,
    /// Which word is the key of a row of side 0.
    pub left: u32,
    /// Which word is the key of a row of side 1.
    pub right: u32,
}
