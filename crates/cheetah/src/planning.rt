ghost use Rattle.std.specs.Prelude.{◌≡◌, IfOk};
ghost use Rattle.ch_asm.specs.Text.{program_text};
ghost use Rattle.ch_command.specs.Command.{answered};

use ch_asm::write_program;
use ch_cells::Memory;
use ch_command::Outcome;
use ch_plan::Planned;
use std::alloc::Global;

/// The text of a plan's program.
pub fn print_program(alloc: Global, planned: &Planned) -> Result<Outcome, Memory>
    ensures { IfOk result (λ outcome. outcome ≡ answered (program_text planned.now.checked)) }
{
    let text = write_program(alloc, planned.checked.program())?;
    Ok(Outcome::answered(alloc, text))
}
