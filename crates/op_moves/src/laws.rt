ghost use Rattle.std.specs.Prelude.{◌≡◌, ◌<◌, ℕ, ℤ, Bool, List, [], None};
ghost use Rattle.std.specs.Option.{option_and_then};
ghost use Rattle.ch_cover.specs.Rows.{Policy, Row};
ghost use Rattle.ch_ir.specs.declared.program.Array.{Array};
ghost use Rattle.ch_ir.specs.declared.program.Program.{Program};
ghost use Rattle.ch_ir.specs.Machine.{Registers, State, cleared, machine, ends, given};
ghost use Rattle.ch_ir.specs.Rules.{BreaksNoRule, inputs};
ghost use Rattle.ch_verdicts.specs.Agrees.{Agrees};
ghost use Rattle.op_moves.specs.Moves.{Move, program_of, moves_made};
ghost use Rattle.op_moves.specs.InOrder.{InOrder, next_word};
ghost use Rattle.op_moves.specs.Steps.{Steps};

/// A step of the machine does the moves in turn, and then reads the verdict.
pub fn runs()
    ensures { (width : ℕ) (arrays : List Array) (moves : List Move) (verdict : ℕ) (registers : Registers) (row : List ℤ)
        → machine (program_of width arrays moves verdict) registers row ≡ option_and_then (ends verdict) (moves_made arrays moves (record { words = given width row; registers = registers })) }
{}

/// Moves in order break no rule, where the verdict is one of their words.
pub fn in_order()
    ensures { (width : ℕ) (arrays : List Array) (moves : List Move) (verdict : ℕ) → InOrder arrays width 0 (inputs width) moves → verdict < next_word arrays width moves
        → BreaksNoRule (program_of width arrays moves verdict) }
{}

/// A program whose registers are a function of the history, and whose verdict on a row is the policy's, agrees with it.
pub fn steps()
    ensures { (is_row : Row → Bool) (p : Program) (prunes : Policy) (registers : List (ℕ × Row) → Registers) → Steps is_row p prunes registers
        → Agrees is_row p None (cleared p.arrays) prunes }
{}
