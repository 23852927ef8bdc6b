ghost use Rattle.std.specs.Prelude.{◌≡◌};
ghost use Rattle.ch_command.specs.Status.{exit_code};

use crate::outcome::Ending;

/// How a command ends.
#[derive(Clone, Copy, Debug, PartialEq, Eq)]
pub enum Status {
    Ended(Ending),
    ReadFault,
    WriteFault,
    Memory,
}

impl Status {
    /// The exit status of the program.
    pub fn code(self) -> u8
        ensures { result ≡ exit_code self }
    {
        match self {
            Status::Ended(ending) => ending.code(),
            Status::ReadFault => 5,
            Status::WriteFault => 6,
            Status::Memory => 7,
        }
    }
}
