ghost use Rattle.std.specs.Prelude.{◌≡◌, length};
ghost use Rattle.ch_fold_lines.specs.AnswerLines.{lines_in};

use ch_flat::Rows;

/// The lines of an answer: the words that it prints of each row. Contracts speak of them in the answer's order.
pub enum AnswerLines<'a> {
    /// Rows that a fold keeps, in whatever order.
    Kept(&'a Rows),
    /// Rows that were made for the answer, in whatever order.
    Made(Rows),
    InOrder(Vec<&'a [i64]>),
}

impl<'a> Drop for AnswerLines<'a> {
    fn drop(self) {
        match self {
            AnswerLines::Kept(_) => {}
            AnswerLines::Made(_) => {}
            AnswerLines::InOrder(_) => {}
        }
    }
}

impl<'a> AnswerLines<'a> {
    /// How many there are.
    pub fn len(&self) -> usize
        ensures { result ≡ length (lines_in self.now) }
    {
        match self {
            AnswerLines::Kept(rows) => rows.len(),
            AnswerLines::Made(rows) => rows.len(),
            AnswerLines::InOrder(lines) => lines.len(),
        }
    }
}
