//! The workers of a query: each has a part of one of its tables, whose rows it sends as packets.
#![tactic(auto)]

mod laws;
mod parts;
mod row;
mod side;

pub use laws::parts_have_rows;
pub use parts::Parts;
pub use row::{Source, table_of};
pub use side::Side;
