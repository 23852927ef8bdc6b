/// All that the policy and the program of a `TopN` hang on.
#[derive(Clone, Copy)]
pub struct Sizes {
    /// How many words a row is given by: pass, side and bit, and then those of the row.
    pub width: u32,
    /// How many thresholds stand above the least of the first values.
    pub steps: u32,
    /// How far the first of them stands above it.
    pub gap: u32,
    /// Which word is ordered.
    pub value: u32,
    pub descending: bool,
    /// How many rows are printed at most.
    pub limit: u32,
}
