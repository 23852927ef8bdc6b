//! The master's folds of rows of words for queries with groups: the best value of each key, and the keys whose sum, or
//! number of rows, is above a number.
#![tactic(auto)]

mod bests;
mod group;
mod having;
mod lines;
mod places;
mod sums;

pub use bests::Bests;
pub use group::GroupFold;
pub use having::HavingFold;
pub use sums::Sums;
