//! Programs as one list of moves, each an op or an access: what they do to words and registers, which rules they keep, what
//! they need of a profile, and a builder that makes them. The operators' programs are written and proved as moves.
#![tactic(auto)]

mod builder;
mod laws;

pub use builder::{Builder, always, arrays_alike};
pub use laws::{in_order, runs, steps};
