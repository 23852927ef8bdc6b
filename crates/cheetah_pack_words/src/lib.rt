//! The words of the packing command: what they ask for, or that they are none of its.
#![tactic(auto)]

mod words;

pub use words::asked_in;
