//! Cells, rows and their order, the spelling of a number, and the plain types that several crates share.
#![tactic(auto)]

mod bytes;
mod cell;
mod cell_ref;
mod listed;
mod memory;
mod number;
mod outcome;
mod row;

pub use bytes::Bytes;
pub use cell::{Cell, Kind, cells_are_ordered, cmp_cells, copy_cell};
pub use cell_ref::{CellRef, cmp_lent, copy_lent, lend_cell};
pub use listed::Listed;
pub use memory::Memory;
pub use number::{read_number, spelling_is_decimal};
pub use outcome::{Answer, Counts, OpenFlow};
pub use row::{Header, Row, cmp_rows, copy_row, rows_are_ordered, sort_rows};
