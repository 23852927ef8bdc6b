//! The Bloom filters of two sides, which a join and a semi-join share: the test, its registers and its moves.
#![tactic(auto)]

mod emitting;
mod sizes;

pub use emitting::{filter_arrays, make_filters};
pub use sizes::Sizes;
