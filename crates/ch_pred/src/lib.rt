//! Bound queries: their predicates, when a row holds, and what a query means.
#![tactic(auto)]

mod bound;
mod cells;
mod copies;
mod parts;
mod pred;
mod truth;

pub use bound::{Bound, Dim, Printed, Shape, filter_answer};
pub use cells::Cells;
pub use copies::copy_bound;
pub use parts::{is_exact, part, weak};
pub use pred::{Arg, BoundPred, Cmp, Col, Literal};
pub use truth::{holds, parts_follow};
