use op_bloom::Sizes as Filters;

/// All that the policy and the program of a `Semi` hang on.
#[derive(Clone, Copy)]
pub struct Sizes {
    /// The filters: the outer table is side 0 with its key, the inner one side 1 with the inner key.
    pub bloom: Filters,
    /// How many hash rows list inner keys.
    pub rows: u32,
    /// How many keys each of them lists.
    pub cols: u32,
}
