ghost use Rattle.std.specs.Prelude.{◌≡◌, ◌==◌, ◌<◌, ◌+◌, ◌^◌, filter, length, IfOk};
ghost use Rattle.ch_audit_laws.specs.Said.{names_of_pass};
ghost use Rattle.ch_protocol.specs.Machine.{Config, State, start, stopped, workers};
ghost use Rattle.ch_trace_laws.specs.Sendable.{AreSendable};
ghost use Rattle.ch_audit_runs.specs.Arrivals.{AreKept};
ghost use Rattle.ch_audit_runs.specs.Checking.{IsChecked, said_in, said_text};

use crate::arrival::Arrival;
use crate::noting::Noting;
use crate::said::accepted;
use crate::walking::{Walked, go_through};
use ch_audit::refused_line;
use ch_cells::{Bytes, Memory};
use std::alloc::Global;

/// What a trace comes to.
pub enum Checked {
    /// It is accepted: what is said of it.
    Accepted(Bytes),
    /// The line that refuses it.
    Refused(Bytes),
}

impl Drop for Checked {
    fn drop(self) {
        match self {
            Checked::Accepted(_) => {}
            Checked::Refused(_) => {}
        }
    }
}

impl Checked {
    /// What is said of it, or the line.
    pub fn into_said(self) -> Result<Bytes, Bytes>
        ensures { result ≡ said_in self }
    {
        match self {
            Checked::Accepted(said) => Ok(said),
            Checked::Refused(line) => Err(line),
        }
    }
}

/// The rows of a pass.
fn of_pass(alloc: Global, rows: &[Arrival], pass: u8) -> Result<Vec<Arrival>, Memory>
    ensures { IfOk result (λ kept. kept.items ≡ filter (λ row. row.pass == pass) rows.now) }
{
    let kept: Vec<Arrival> = rows
        .iter()
        .copied()
        .filter(|row| row.pass == pass)
        .collect(alloc)?;
    Ok(kept)
}

/// What is said of a run as it stands, by the rows that the master received in each pass.
fn accept<R: Noting>(
    alloc: Global,
    run: &R,
    events: usize,
    rows: &[Arrival],
) -> Result<Bytes, Memory>
    ensures { (c : Config) (s : State) → R.stands run.now c s → 0 < workers c → AreKept c s rows.now → IfOk result (λ said. said ≡ said_text (stopped c s) events (names_of_pass c s)) }
{
    let pass = run.pass()?;
    let kept = of_pass(alloc, rows, pass)?;
    accepted(alloc, run.stopped(), events, kept.as_slice())
}

/// Checks a text along the run of its events, which is at its start.
pub fn check<R: Noting>(alloc: Global, run: &mut R, text: &[u8]) -> Result<Checked, Memory>
    requires valid { R.valid run.old }
    requires epochs { R.epoch run.old + length text.now + 1 < 2 ^ 32 }
    ensures { (c : Config) → R.stands run.old c (start c) → AreSendable c → 0 < workers c → IfOk result (λ checked. IsChecked c text.now checked) }
{
    let mut rows = Vec::new(alloc);
    match go_through(alloc, run, &mut rows, text)? {
        Walked::Whole(events) => {
            let said = accept(alloc, run, events, rows.as_slice())?;
            Ok(Checked::Accepted(said))
        }
        Walked::Refused(line) => {
            let said = refused_line(alloc, line)?;
            Ok(Checked::Refused(said))
        }
    }
}
