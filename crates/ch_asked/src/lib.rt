//! What a query asks of its tables: the dictionary of its texts, and the laws that a query which is bound to tables can be run
//! over them.
#![tactic(auto)]

mod laws;
mod texts;

pub use laws::{
    bound_queries_are_plannable, bound_queries_suit, dictionaries_are_exact, read_tables_are_typed,
    suited_tables_are_asked, workers_are_few,
};
pub use texts::rank_texts;
