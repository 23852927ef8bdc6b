//! What the files of the command give: the profile, the schedule, the tables and the query bound to them; or the line that
//! refuses the first of them that is none.
#![tactic(auto)]

mod inputs;
mod laws;
mod messages;
mod parts;
mod question;
mod refusal;
mod settings;
mod tables;

pub use inputs::{Inputs, Shared, names_in, read_inputs, read_shared};
pub use laws::{read_inputs_can_be_asked, read_schedules_can_be_run, read_tables_are_small};
pub use messages::{bind_line, plan_line, schedule_line, sum_line};
pub use question::read_question;
pub use refusal::Refusal;
