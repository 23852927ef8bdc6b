//! JOIN: the operator that keeps the rows whose key the other table may have.
#![tactic(auto)]

mod emitting;
mod join;
mod laws;

pub use join::JoinOp;
pub use laws::worked;
