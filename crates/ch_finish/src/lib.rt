//! The master's fold: rows of words as they arrive, and the answer over them at every moment.
#![tactic(auto)]

mod arriving;
mod fold;
mod received;

pub use arriving::{finish, folded};
pub use fold::Fold;
pub use received::{Arrived, Received};
