//! HAVING: the operator that keeps the rows of keys whose sum, or number of rows, may be above a number.
#![tactic(auto)]

mod emitting;
mod having;
mod laws;
mod sizes;

pub use having::HavingOp;
pub use laws::worked;
pub use sizes::Sizes;
