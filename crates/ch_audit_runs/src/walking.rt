//! A text is gone through line by line, along the run of its events.
ghost use Rattle.std.specs.Prelude.{◌≡◌, ◌<◌, ◌≤◌, ◌+◌, ◌^◌, [], false, length, IfOk, OnOk};
ghost use Rattle.ch_audit_laws.specs.Own.{cut};
ghost use Rattle.ch_audit_laws.specs.Walks.{is_ending};
ghost use Rattle.ch_protocol.specs.Machine.{Config, State, start};
ghost use Rattle.ch_schedule.specs.Bad.{is_forged};
ghost use Rattle.ch_trace_laws.specs.Sendable.{AreSendable, IsSendable};
ghost use Rattle.ch_audit_runs.specs.Arrivals.{AreKept};
ghost use Rattle.ch_audit_runs.specs.Walking.{Agrees, Comes, Ends, Finds, ending_found};

use crate::arrival::{Arrival, keep};
use crate::noting::Noting;
use ch_audit::agrees;
use ch_cells::Memory;
use ch_trace_lines::{Ending, Line, LineError, Noted, cut_line, read_line};
use std::alloc::Global;

/// What a line comes to.
#[derive(Clone, Copy)]
pub(crate) enum Found {
    /// The trace goes on behind it.
    Next,
    /// It is the last line, and nothing stands behind it.
    Over,
    /// It is the last line, and something stands behind it.
    Behind,
    /// No trace has it here.
    Wrong,
}

/// What a text comes to.
#[derive(Clone, Copy)]
pub(crate) enum Walked {
    /// A trace of so many events.
    Whole(usize),
    /// This line is refused.
    Refused(usize),
}

/// The line of an event: the run makes it, and the line must say what the run makes of it.
fn check_event<R: Noting>(
    run: &mut R,
    rows: &mut Vec<Arrival>,
    said: &Noted,
) -> Result<bool, Memory>
    requires valid { R.valid run.old }
    requires epoch { R.epoch run.old + 1 < 2 ^ 32 }
    requires unforged { is_forged said.now.step ≡ false }
    ensures valid { OnOk result (R.valid run.new) }
    ensures epoch { OnOk result (R.epoch run.new ≤ R.epoch run.old + 1) }
    ensures agreed { (c : Config) (s : State) → R.stands run.old c s → IsSendable c s → AreKept c s rows.old.items → IfOk result (λ same. Agrees c s (R.stands run.new c) rows.new.items said.now same) }
{
    if run.stopped() {
        return Ok(false);
    }
    let found = run.step_noted(&said.step)?;
    if !agrees(said, &found) {
        return Ok(false);
    }
    keep(rows, &found)?;
    Ok(true)
}

/// Whether the run ends so, where it has stopped or hasn't.
fn is_ending(ending: Ending, stops: bool) -> bool
    ensures { result ≡ is_ending ending stops }
{
    match ending {
        Ending::Done => stops,
        Ending::Open => !stops,
    }
}

/// What the last line comes to.
fn ending_found(ends: bool, over: bool) -> Found
    ensures { result ≡ ending_found ends over }
{
    if !ends {
        Found::Wrong
    } else if over {
        Found::Over
    } else {
        Found::Behind
    }
}

/// The line that says how the run ends.
fn check_ending<R: Noting>(run: &R, ending: Ending, behind: &[u8]) -> Found
    ensures { (c : Config) (s : State) → R.stands run.now c s → Ends c s ending (cut behind.now) result }
{
    ending_found(is_ending(ending, run.stopped()), behind.is_empty())
}

/// A line, and what stands behind its line feed.
fn check_line<R: Noting>(
    alloc: Global,
    run: &mut R,
    rows: &mut Vec<Arrival>,
    text: &[u8],
    behind: &[u8],
) -> Result<Found, Memory>
    requires valid { R.valid run.old }
    requires epoch { R.epoch run.old + 1 < 2 ^ 32 }
    ensures valid { OnOk result (R.valid run.new) }
    ensures epoch { OnOk result (R.epoch run.new ≤ R.epoch run.old + 1) }
    ensures comes { (c : Config) (s : State) → R.stands run.old c s → IsSendable c s → AreKept c s rows.old.items → IfOk result (λ found. Comes c s (R.stands run.new c) rows.new.items text.now (cut behind.now) found) }
{
    match read_line(alloc, text) {
        Ok(line) => match &line {
            Line::Event(said) => {
                if check_event(run, rows, said)? {
                    Ok(Found::Next)
                } else {
                    Ok(Found::Wrong)
                }
            }
            Line::End(ending) => Ok(check_ending(run, *ending, behind)),
        },
        Err(LineError::Bad) => Ok(Found::Wrong),
        Err(LineError::Memory) => Err(Memory),
    }
}

/// Goes through a text along the run of its events, which is at its start, and keeps the rows that the master receives.
pub(crate) fn go_through<R: Noting>(
    alloc: Global,
    run: &mut R,
    rows: &mut Vec<Arrival>,
    text: &[u8],
) -> Result<Walked, Memory>
    requires valid { R.valid run.old }
    requires none { rows.old.items ≡ [] }
    requires epochs { R.epoch run.old + length text.now + 1 < 2 ^ 32 }
    ensures { (c : Config) → R.stands run.old c (start c) → AreSendable c → IfOk result (λ walked. Finds c (R.stands run.new c) rows.new.items text.now walked) }
{
    let mut rest = text;
    let mut lines = 0;
    while let Some((line, behind)) = cut_line(rest) {
        match check_line(alloc, run, rows, line, behind)? {
            Found::Next => {}
            Found::Over => return Ok(Walked::Whole(lines)),
            Found::Behind => return Ok(Walked::Refused(lines + 2)),
            Found::Wrong => return Ok(Walked::Refused(lines + 1)),
        }
        lines += 1;
        rest = behind;
    }
    Ok(Walked::Refused(lines + 1))
}
