//! The words of the audit: what they ask for, or that they are none of its.
#![tactic(auto)]

mod words;

pub use words::{Errand, Task, errand_in};
