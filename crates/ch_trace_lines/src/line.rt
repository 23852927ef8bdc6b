use ch_cells::{Bytes, Memory};
use ch_protocol::NoteFate;
use ch_schedule::Step;
use thiserror::Error;

/// An event of a run with what it met.
#[derive(Debug)]
pub struct Noted {
    /// What happened.
    pub step: Step,
    /// The bytes of the packet that was sent or delivered or lost, where there was one.
    pub bytes: Option<Bytes>,
    /// What became of it.
    pub fate: NoteFate,
}

impl Drop for Noted {
    fn drop(self) {
        let Noted {
            step: _,
            bytes: _,
            fate: _,
        } = self;
    }
}

/// How a run stands where its trace ends.
#[derive(Clone, Copy, Debug, PartialEq, Eq)]
pub enum Ending {
    /// Each worker's end is confirmed in the last pass.
    Done,
    Open,
}

/// A line of a trace.
#[derive(Debug)]
pub enum Line {
    Event(Noted),
    /// The last line.
    End(Ending),
}

impl Drop for Line {
    fn drop(self) {
        match self {
            Line::Event(_) => {}
            Line::End(_) => {}
        }
    }
}

/// Why a text is not read as a line.
#[derive(Clone, Copy, Debug, PartialEq, Eq, Error)]
pub enum LineError {
    /// It spells no line.
    #[error("no line of a trace")]
    Bad,
    #[error("out of memory")]
    Memory,
}

impl From<Memory> for LineError {
    ghost use Rattle.std.specs.Prelude.{◌≡◌};
    ghost use Rattle.ch_trace_lines.specs.declared.line.LineError.TheVariants.{Memory};

    ghost from_gives = { λ _ e. e ≡ Memory };

    fn from(_: Memory) -> LineError {
        LineError::Memory
    }
}
