//! The operator of ORDER BY with LIMIT: it prunes a row whose value enough earlier rows are better than.
#![tactic(auto)]

mod emitting;
mod laws;
mod sizes;
mod topn;

pub use laws::worked;
pub use sizes::Sizes;
pub use topn::TopN;
