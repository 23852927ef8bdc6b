ghost use Rattle.std.specs.Prelude.{◌≡◌, [], length, OnOk, OnErr};
ghost use Rattle.std.specs.Ordering.{int_cmp};
ghost use Rattle.ch_lists.specs.Ordered.{is_among};
ghost use Rattle.ch_fold_laws.specs.Kept.{with_key};

use ch_cells::Memory;
use indexmap::IndexSet;
use std::alloc::Global;
use std::marker::Model;

/// Different words.
#[derive(Drop)]
pub struct Words {
    set: IndexSet<i64>,
}

impl Model for Words {
    ghost use Rattle.std.specs.Prelude.{List, ℤ};

    ghost Value = { List ℤ };

    ghost view = { λ w. w.set.keys };
}

impl Words {
    /// No words yet.
    pub fn new(alloc: Global) -> Words
        ensures { result ≡ [] }
    {
        Words {
            set: IndexSet::new(alloc),
        }
    }

    /// How many words there are.
    pub fn len(&self) -> usize
        ensures { result ≡ length self.now }
    {
        self.set.len()
    }

    /// Whether a word is there.
    pub fn has(&self, word: i64) -> bool
        ensures { result ≡ is_among int_cmp word self.now }
    {
        self.set.contains(&word)
    }

    /// Puts a word at the end, if it isn't there.
    pub fn add(&mut self, word: i64) -> Result<(), Memory>
        ensures ok { OnOk result (self.new ≡ with_key int_cmp self.old word) }
        ensures err { OnErr result (self.new ≡ self.old) }
    {
        self.set.insert(word)?;
        Ok(())
    }
}
