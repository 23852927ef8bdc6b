ghost use Rattle.std.specs.Prelude.{◌≡◌};
ghost use Rattle.ch_ir.specs.declared.program.Program.{Program};
ghost use Rattle.ch_verify.specs.Checked.{AccessesApart, AlwaysRuns, IsChecked};

use ch_ir::Program;
use std::marker::Model;

/// A program that breaks no rule. Contracts see it as the program.
#[derive(Drop)]
pub struct Checked {
    program: Program,
}

impl Model for Checked {
    ghost use Rattle.ch_ir.specs.declared.program.Program.{Program};
    ghost use Rattle.ch_verify.specs.Checked.{IsChecked};

    ghost Value = { Program };

    ghost view = { λ c. c.program };

    ghost invariant = { λ c. IsChecked c.program };
}

impl Checked {
    pub fn program(&self) -> &Program
        ensures same { result.now ≡ self.now }
        ensures checked { IsChecked self.now }
    {
        &self.program
    }

    /// Takes a program that the verifier's loops found no fault in.
    pub(crate) fn new(program: Program) -> Checked
        requires { IsChecked program }
        ensures { result ≡ program }
    {
        Checked { program }
    }
}

/// A checked program has a value on any words and any registers of its arrays. It makes at most one access per stage, and
/// accesses each array in at most one stage.
pub fn checked_programs_run()
    ensures runs { (p : Program) → IsChecked p → AlwaysRuns p }
    ensures apart { (p : Program) → IsChecked p → AccessesApart p }
{}
