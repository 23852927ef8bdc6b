ghost use Rattle.std.specs.Prelude.{◌≡◌, ◌≤◌, IfSome, length, option_map};
ghost use Rattle.ch_command.specs.Reading.{most_bytes};
ghost use Rattle.cheetah_inputs.specs.Inputs.{ReadsSchedule, profile_or_line};
ghost use Rattle.cheetah_inputs.specs.Refusals.{Reads};

use crate::messages::schedule_line;
use crate::refusal::Refusal;
use ch_cells::Listed;
use ch_ir::{Profile, default_profile, read_profile};
use ch_messages::profile_line;
use ch_schedule::{Schedule, read_schedule};
use std::alloc::Global;

/// The profile that a text gives, or the default one.
pub(crate) fn profile_of(alloc: Global, text: Option<&[u8]>) -> Result<Profile, Refusal>
    requires { IfSome text (λ text. length text.now ≤ most_bytes) }
    ensures { Reads (profile_or_line (option_map (λ text. text.now) text.entry)) result }
{
    match text {
        Some(text) => match read_profile(text) {
            Ok(profile) => Ok(profile),
            Err(error) => Err(Refusal::Line(profile_line(alloc, error)?)),
        },
        None => Ok(default_profile()),
    }
}

/// The schedule that a text gives, or the one that only drains.
pub(crate) fn schedule_of(alloc: Global, text: Option<&[u8]>) -> Result<Schedule, Refusal>
    requires { IfSome text (λ text. length text.now ≤ most_bytes) }
    ensures { ReadsSchedule (option_map (λ text. text.now) text.entry) result }
{
    match text {
        Some(text) => match read_schedule(alloc, text) {
            Ok(schedule) => Ok(schedule),
            Err(error) => Err(Refusal::Line(schedule_line(alloc, error)?)),
        },
        None => Ok(Schedule {
            steps: Listed::new(alloc),
            drain: true,
        }),
    }
}
