//! Runs that are told beforehand.
use ch_audit_runs::Noting;
use ch_cells::{Bytes, Listed, Memory};
use ch_protocol::NoteFate;
use ch_schedule::Step;
use ch_trace_lines::{Line, Noted, cut_line, read_line};
use std::alloc::Global;

fn nothing() -> Noted {
    Noted {
        step: Step::Restart,
        bytes: None,
        fate: NoteFate::Restarted,
    }
}

fn step_of(alloc: Global, step: &Step) -> Result<Step, Memory> {
    match step {
        Step::Send { worker } => Ok(Step::Send { worker: *worker }),
        Step::Resend { worker, place } => Ok(Step::Resend {
            worker: *worker,
            place: *place,
        }),
        Step::Up { at, how } => Ok(Step::Up { at: *at, how: *how }),
        Step::Down { at, how } => Ok(Step::Down { at: *at, how: *how }),
        Step::Back { at, how } => Ok(Step::Back { at: *at, how: *how }),
        Step::Inject { link, bytes } => {
            let bytes = Bytes::from_slice(alloc, bytes.as_slice())?;
            Ok(Step::Inject { link: *link, bytes })
        }
        Step::Restart => Ok(Step::Restart),
    }
}

fn packet_of(alloc: Global, bytes: &Option<Bytes>) -> Result<Option<Bytes>, Memory> {
    match bytes {
        Some(bytes) => Ok(Some(Bytes::from_slice(alloc, bytes.as_slice())?)),
        None => Ok(None),
    }
}

/// The note that a line tells.
fn noted_in(alloc: Global, line: &[u8]) -> Result<Noted, Memory> {
    match &read_line(alloc, line) {
        Ok(Line::Event(said)) => {
            let bytes = packet_of(alloc, &said.bytes)?;
            let step = step_of(alloc, &said.step)?;
            Ok(Noted {
                step,
                bytes,
                fate: said.fate,
            })
        }
        _ => Ok(nothing()),
    }
}

/// A run that is told beforehand what it notes: the lines of a text, one for each step. It stands for no run of the protocol.
#[derive(Drop)]
pub(crate) struct Told<'a> {
    alloc: Global,
    rest: &'a [u8],
    /// How many events it makes before it stops.
    left: usize,
}

impl Noting for Told<'_> {
    ghost valid = { λ run. Unit {0} };

    ghost stands = { λ run c s. ⊥ };

    ghost epoch = { λ run. 0 };

    fn stopped(&self) -> bool {
        self.left == 0
    }

    fn pass(&self) -> Result<u8, Memory> {
        Ok(1)
    }

    fn step_noted(&mut self, _: &Step) -> Result<Noted, Memory> {
        self.left = self.left.saturating_sub(1);
        if let Some((line, rest)) = cut_line(self.rest) {
            self.rest = rest;
            return noted_in(self.alloc, line);
        }
        Ok(nothing())
    }

    fn drain_noted(&mut self) -> Result<Listed<Noted>, Memory> {
        let mut notes = Listed::new(self.alloc);
        for _ in 0..self.left {
            let noted = self.step_noted(&Step::Restart)?;
            notes.push(noted)?;
        }
        Ok(notes)
    }
}

pub(crate) fn run_over(alloc: Global, text: &[u8], left: usize) -> Told<'_> {
    Told {
        alloc,
        rest: text,
        left,
    }
}
