//! Queries whose plans are packed are run one after the other over one installed program, and what they write.
#![tactic(auto)]

mod running;

pub use running::run_packed;
