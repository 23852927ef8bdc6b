ghost use Rattle.std.specs.Prelude.{◌≡◌, ◌<◌, ◌+◌, ◌^◌, ◌++◌, ◌∷◌, [], ℕ, List, bytes_eq, if◌then◌else◌, length, IfOk, OnOk, OnErr};
ghost use Rattle.std.specs.List.{list_any};
ghost use Rattle.ch_lists.specs.Ordered.{ordered};
ghost use Rattle.ch_ranks.specs.Dictionary.{Ascends, text_cmp};

use crate::ranks::{Ranks, sorted};
use ch_cells::Memory;
use indexmap::IndexSet;
use std::alloc::Global;
use std::marker::Model;

/// Different texts that are to be ranked, in the order in which they came.
#[derive(Drop)]
pub struct RanksBuilder {
    texts: IndexSet<Vec<u8>>,
}

impl Model for RanksBuilder {
    ghost use Rattle.std.specs.Prelude.{List, ℕ, length, map, ◌<◌, ◌^◌};

    ghost Value = { List (List ℕ) };

    ghost view = { λ b. map (λ v. v.items) b.texts.keys };

    ghost invariant = { λ b. length b.texts.keys < 2 ^ 32 };
}

impl RanksBuilder {
    pub fn new(alloc: Global) -> RanksBuilder
        ensures { result ≡ [] }
    {
        RanksBuilder {
            texts: IndexSet::new(alloc),
        }
    }

    /// Adds a text, if it isn't there.
    pub fn add(&mut self, text: &[u8]) -> Result<(), Memory>
        requires { length self.old + 1 < 2 ^ 32 }
        ensures ok { OnOk result (self.new ≡ (if list_any (bytes_eq text.now) self.old then self.old else self.old ++ text.now ∷ [])) }
        ensures err { OnErr result (self.new ≡ self.old) }
    {
        if self.texts.contains(text) {
            return Ok(());
        }
        let own = Vec::from_slice(*self.texts.allocator(), text)?;
        self.texts.insert(own)?;
        Ok(())
    }

    /// Sorts the texts, which is all that it takes to rank them. What is refused gives them up.
    pub fn finish(self) -> Result<Ranks, Memory>
        ensures sorted { IfOk result (λ ranks. ranks ≡ ordered text_cmp self) }
        ensures ascends { IfOk result (λ ranks. Ascends ranks) }
        ensures same { IfOk result (λ ranks. (text : List ℕ) → list_any (bytes_eq text) ranks ≡ list_any (bytes_eq text) self) }
    {
        let RanksBuilder { texts } = self;
        sorted(texts)
    }
}
