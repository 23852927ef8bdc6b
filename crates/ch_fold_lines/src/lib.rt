//! The master's folds of rows of words as they arrive: what all kinds of queries share, and the folds of a filter and of a
//! DISTINCT.
#![tactic(auto)]

mod answer_lines;
mod distinct;
mod filter;
mod fits;
mod laws;
mod places;
mod shown;
mod texts;

pub use answer_lines::AnswerLines;
pub use distinct::DistinctFold;
pub use filter::FilterFold;
pub use fits::row_fits;
pub use laws::sent_rows_fit;
pub use places::{printed_kinds, printed_places, word_place};
pub use shown::answer_of_lines;
pub use texts::text_of_lines;
