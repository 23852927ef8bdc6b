//! The engine of a run: workers, switch and master over links of bytes, and each event of the protocol.
#![tactic(auto)]

mod answers;
mod beginning;
mod downs;
mod engine;
mod sends;
mod steps;
mod taking;
mod ups;

pub use beginning::begin;
pub use engine::Engine;
