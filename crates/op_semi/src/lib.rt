//! The operator of a semi-join: it keeps the rows whose key the other table may have, and of the inner rows of one key mostly
//! the first.
#![tactic(auto)]

mod emitting;
mod laws;
mod semi;
mod sizes;

pub use laws::worked;
pub use semi::Semi;
pub use sizes::Sizes;
