//! The master's folds of rows of words for queries of two tables: the pairs of a join, and the rows whose key stands in the
//! other table.
#![tactic(auto)]

mod join;
mod lines;
mod pairs;
mod semi;
mod words;

pub use join::JoinFold;
pub use semi::SemiFold;
pub use words::Words;
