//! What an operator is: a policy, a program that has its verdicts, what it needs, and the queries that it serves. `Filter`
//! is the first.
#![tactic(auto)]

mod filter;
mod front;
mod laws;
mod operator;

pub use filter::Filter;
pub use front::Front;
pub use laws::fronts_tell;
pub use operator::{Need, OnePass, Operator, TwoPass};
