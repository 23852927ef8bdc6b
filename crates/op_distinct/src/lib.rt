//! The operator of DISTINCT: of each hash row the latest used keys.
#![tactic(auto)]

mod distinct;
mod emit;
mod laws;

pub use distinct::Distinct;
pub use laws::worked_verdicts;
