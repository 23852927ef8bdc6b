ghost use Rattle.std.specs.Prelude.{◌≡◌, ◌++◌, ◌∷◌, [], OnOk};

use crate::layout::{Last, is_mark_spaced, last_after};
use crate::spelled::mark_text;
use crate::text::{put_name, put_pattern, put_quoted, put_space};
use ch_cells::{Bytes, Memory};
use ch_sql_grammar::Mark;
use itoa::Buffer;
use std::alloc::Global;
use std::marker::Model;

/// Writes tokens, with one space between them or none.
#[derive(Drop)]
pub struct Writer {
    text: Vec<u8>,
    last: Last,
}

impl Model for Writer {
    ghost use Rattle.ch_sql_text.specs.Writing.{Written};

    ghost Value = { Written };

    ghost view = { λ w. record { text = w.text.items; last = w.last } };
}

impl Writer {
    ghost use Rattle.ch_sql_grammar.specs.declared.terminal.Terminal.TheVariants as terminal;
    ghost use Rattle.ch_sql_text.specs.declared.layout.Last.TheVariants as last;
    ghost use Rattle.ch_sql_text.specs.Printed.{when};
    ghost use Rattle.ch_sql_text.specs.Writing.{put, puts};

    pub fn new(alloc: Global) -> Writer
        ensures { result ≡ record { text = []; last = last.Open } }
    {
        Writer {
            text: Vec::new(alloc),
            last: Last::Open,
        }
    }

    pub fn into_text(self) -> Bytes
        ensures { result ≡ self.text }
    {
        let Writer { text, last: _ } = self;
        Bytes::from_vec(text)
    }

    #[tactic(auto, unfolding(crate::specs::Writing::put))]
    pub fn mark(&mut self, mark: Mark) -> Result<(), Memory>
        ensures { OnOk result (self.new ≡ put self.old (terminal.Mark mark)) }
    {
        put_space(&mut self.text, is_mark_spaced(self.last, mark))?;
        self.text.extend_from_slice(mark_text(mark).as_bytes())?;
        self.last = last_after(mark);
        Ok(())
    }

    /// The mark, if it is wanted.
    pub fn mark_if(&mut self, wanted: bool, mark: Mark) -> Result<(), Memory>
        ensures { OnOk result (self.new ≡ puts self.old (when wanted mark)) }
    {
        if wanted { self.mark(mark) } else { Ok(()) }
    }

    #[tactic(auto, unfolding(crate::specs::Writing::put))]
    pub fn name(&mut self, name: &Bytes) -> Result<(), Memory>
        ensures { OnOk result (self.new ≡ put self.old (terminal.Name name.now)) }
    {
        put_space(&mut self.text, self.last != Last::Open)?;
        put_name(&mut self.text, name.as_slice())?;
        self.last = Last::Other;
        Ok(())
    }

    #[tactic(auto, unfolding(crate::specs::Writing::put))]
    pub fn number(&mut self, n: i64) -> Result<(), Memory>
        ensures { OnOk result (self.new ≡ put self.old (terminal.Number n)) }
    {
        put_space(&mut self.text, self.last != Last::Open)?;
        let mut digits = Buffer::new();
        self.text.extend_from_slice(digits.format(n).as_bytes())?;
        self.last = Last::Other;
        Ok(())
    }

    #[tactic(auto, unfolding(crate::specs::Writing::put))]
    pub fn text(&mut self, text: &Bytes) -> Result<(), Memory>
        ensures { OnOk result (self.new ≡ put self.old (terminal.Text text.now)) }
    {
        put_space(&mut self.text, self.last != Last::Open)?;
        put_quoted(&mut self.text, b'\'', text.as_slice())?;
        self.last = Last::Other;
        Ok(())
    }

    /// The text of a prefix and a percent sign.
    #[tactic(auto, unfolding(crate::specs::Writing::put))]
    pub fn pattern(&mut self, prefix: &Bytes) -> Result<(), Memory>
        ensures { OnOk result (self.new ≡ put self.old (terminal.Text (prefix.now ++ 37 ∷ []))) }
    {
        put_space(&mut self.text, self.last != Last::Open)?;
        put_pattern(&mut self.text, prefix.as_slice())?;
        self.last = Last::Other;
        Ok(())
    }
}
