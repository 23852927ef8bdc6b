//! Tables, read from parts of CSV text.
#![tactic(auto)]

mod column;
mod draft;
mod error;
mod field;
mod header;
mod read;
mod records;
mod table;
mod text_column;
mod texts;

pub use error::{Room, TableError};
pub use read::read_table;
pub use table::Table;
