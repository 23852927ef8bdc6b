//! The parser of queries: heads and tails by a step for each token, filters by recursive descent.
#![tactic(auto)]

mod behind;
mod descent;
mod head_steps;
mod heads;
mod query;
mod tail_steps;
mod token_at;

pub use query::query_of;
