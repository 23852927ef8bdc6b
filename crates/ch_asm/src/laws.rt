//! What holds of all programs and texts, as contracts of functions that do nothing.
ghost use Rattle.std.specs.Prelude.{◌≡◌, ◌⊎◌, List, ℕ};
ghost use Rattle.ch_ir.specs.declared.program.Program.{Program};
ghost use Rattle.ch_asm.specs.Refusal.{IsBadLine};
ghost use Rattle.ch_asm.specs.Text.{program_text, IsProgram};

/// A text spells at most one program.
pub fn programs_are_spelled_once()
    ensures { (p q : Program) → IsProgram p → IsProgram q → program_text p ≡ program_text q → p ≡ q }
{}

/// A text has at most one bad line.
pub fn bad_lines_are_told_once()
    ensures { (text : List ℕ) (m n : ℕ) → IsBadLine text m → IsBadLine text n → m ≡ n }
{}

/// A text is a program's or has a bad line, and not both.
pub fn texts_are_read_or_refused()
    ensures some { (text : List ℕ) → ((program : Program) × IsProgram program × (text ≡ program_text program)) ⊎ ((number : ℕ) × IsBadLine text number) }
    ensures not_both { (text : List ℕ) (number : ℕ) (program : Program) → IsBadLine text number → IsProgram program → text ≡ program_text program → ⊥ }
{}
