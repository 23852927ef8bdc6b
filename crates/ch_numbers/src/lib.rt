//! Natural numbers in decimal, up to a greatest one.
#![tactic(auto)]

mod decimal;

pub use decimal::natural;
