use ch_cells::Listed;

/// All that the policy and the program of a `HavingOp` hang on.
pub struct Sizes {
    /// How many words a row is given by: pass, side and bit, and then those of the row.
    pub width: u32,
    /// How many hashes, each with an array of sums.
    pub hashes: u32,
    /// How many sums an array has.
    pub cells: u32,
    /// Which words are the key.
    pub keys: Listed<u32>,
    /// Which word is summed; none where rows are counted.
    pub value: Option<u32>,
    /// What the sum is to be above.
    pub above: i64,
}

impl Drop for Sizes {
    fn drop(self) {
        let Sizes {
            width: _,
            hashes: _,
            cells: _,
            keys: _,
            value: _,
            above: _,
        } = self;
    }
}
