//! What holds of all lines, as contracts of functions that do nothing.
ghost use Rattle.std.specs.Prelude.{◌≡◌, ◌==◌, ◌++◌, List, ℕ, Some, true, not, codes};
ghost use Rattle.std.specs.List.{list_all};
ghost use Rattle.ch_lists.specs.Members.{Each};
ghost use Rattle.ch_protocol.specs.Machine.{Config, State, run, stopped};
ghost use Rattle.ch_schedule.specs.Event.{events_of};
ghost use Rattle.ch_schedule.specs.declared.step.Step.{Step};
ghost use Rattle.ch_trace_lines.specs.Range.{IsLine};
ghost use Rattle.ch_trace_lines.specs.Reading.{line_at, lines_in};
ghost use Rattle.ch_trace_lines.specs.Spelling.{line_text, lines_text};
ghost use Rattle.ch_trace_lines.specs.Trace.{lines_from, trace_from};
ghost use Rattle.ch_trace_lines.specs.Worked as worked;
ghost use Rattle.ch_trace_lines.specs.declared.line.Line.{Line};

/// What is read as a line is its spelling, and what is read as lines is theirs.
pub fn read_lines_are_spelled()
    ensures line { (text : List ℕ) (line : Line) → line_at text ≡ Some line → (text ≡ line_text line) × IsLine line }
    ensures lines { (text : List ℕ) (lines : List Line) → lines_in text ≡ Some lines → (text ≡ lines_text lines) × Each IsLine lines }
{}

/// The spelling of each line is read as it, and that of lines as them.
pub fn spelled_lines_are_read()
    ensures line { (line : Line) → IsLine line → line_at (line_text line) ≡ Some line }
    ensures lines { (lines : List Line) → Each IsLine lines → lines_in (lines_text lines) ≡ Some lines }
{}

/// No spelling has a line feed in it.
pub fn lines_have_no_line_feed()
    ensures { (line : Line) → IsLine line → list_all (λ b. not (b == 10)) (line_text line) ≡ true }
{}

/// A trace goes on line by line while the run does, and ends where it stops.
pub fn traces_are_spelled()
    ensures more { (c : Config) (s : State) (steps others : List Step) → lines_from c s (steps ++ others) ≡ lines_from c s steps ++ lines_from c (run c (events_of steps) s) others }
    ensures stopped { (c : Config) (s : State) (steps others : List Step) → stopped c (run c (events_of steps) s) ≡ true → trace_from c s (steps ++ others) ≡ trace_from c s steps }
    // The lines of the drain of one worker without rows.
    ensures written { lines_text worked.lines ≡ codes "send 0 c702020100000000000000000000000000\nup 0 take c702020100000000000000000000000000 forwarded\ndown 0 take c702020100000000000000000000000000 new\nback 0 take c702030100000100000000000000000000 taken\nend done\n" }
{}
