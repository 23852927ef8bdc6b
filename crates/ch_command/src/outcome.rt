ghost use Rattle.std.specs.Prelude.{◌≡◌, [], IfOk};
ghost use Rattle.ch_command.specs.Command.{answered, refused};
ghost use Rattle.ch_command.specs.Status.{code_of};

use ch_cells::{Bytes, Memory};
use std::alloc::Global;

/// How a command ends that had memory and met no fault.
#[derive(Clone, Copy, Debug, PartialEq, Eq)]
pub enum Ending {
    Done,
    /// The words are no command.
    Usage,
    /// A file or a text is none that the command takes.
    Input,
    /// What was read breaks a limit or a rule.
    Rejected,
    /// The run isn't over.
    Open,
}

impl Ending {
    /// Its exit status.
    pub fn code(self) -> u8
        ensures { result ≡ code_of self }
    {
        match self {
            Ending::Done => 0,
            Ending::Usage => 1,
            Ending::Input => 2,
            Ending::Rejected => 3,
            Ending::Open => 4,
        }
    }
}

/// What a command comes to: how it ends, and what it writes on out and on err.
pub struct Outcome {
    pub ending: Ending,
    pub out: Bytes,
    pub err: Bytes,
}

impl Drop for Outcome {
    fn drop(self) {
        let Outcome {
            ending: _,
            out: _,
            err: _,
        } = self;
    }
}

impl Outcome {
    /// A text on out, and nothing on err.
    pub fn answered(alloc: Global, text: Bytes) -> Outcome
        ensures { result ≡ answered text }
    {
        Outcome {
            ending: Ending::Done,
            out: text,
            err: Bytes::from_vec(Vec::new(alloc)),
        }
    }

    /// A line on err, and nothing on out.
    pub fn refused(alloc: Global, ending: Ending, line: Bytes) -> Outcome
        ensures { result ≡ refused ending line }
    {
        Outcome {
            ending,
            out: Bytes::from_vec(Vec::new(alloc)),
            err: line,
        }
    }
}
