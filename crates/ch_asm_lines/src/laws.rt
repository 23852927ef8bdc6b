//! What holds of all lines, as contracts of functions that do nothing.
ghost use Rattle.std.specs.Prelude.{◌≡◌, ◌==◌, List, ℕ, Some, true, not};
ghost use Rattle.std.specs.List.{list_all};
ghost use Rattle.ch_asm_lines.specs.Reading.{line_of};
ghost use Rattle.ch_asm_lines.specs.Range.{IsLine};
ghost use Rattle.ch_asm_lines.specs.Spelling.{line_text};
ghost use Rattle.ch_asm_lines.specs.declared.line.Line.{Line};

/// What is read as a line is its spelling.
pub fn read_lines_are_spelled()
    ensures { (text : List ℕ) (line : Line) → line_of text ≡ Some line → (text ≡ line_text line) × IsLine line }
{}

/// The spelling of each line is read as it.
pub fn spelled_lines_are_read()
    ensures { (line : Line) → IsLine line → line_of (line_text line) ≡ Some line }
{}

/// No spelling has a line feed in it.
pub fn lines_have_no_line_feed()
    ensures { (line : Line) → IsLine line → list_all (λ b. not (b == 10)) (line_text line) ≡ true }
{}
