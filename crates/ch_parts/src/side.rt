use ch_cells::Listed;
use ch_pred::BoundPred;

/// What the workers of one side share: the part of the filter that gives a row's bit, and the ranks of the texts of their
/// table.
#[derive(Drop)]
pub struct Side {
    pub own: BoundPred,
    pub places: Listed<i64>,
}
