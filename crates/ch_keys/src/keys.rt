ghost use Rattle.std.specs.Prelude.{◌≡◌, ◌++◌, ◌∷◌, [], if◌then◌else◌, length, position, map, option_map, slice_get, IfOk, OnOk, OnErr};
ghost use Rattle.std.specs.Ordering.{int_cmp, is_eq};
ghost use Rattle.std.specs.Cmp.Lexicographic.{slice_cmp};
ghost use Rattle.ch_lists.specs.Members.{AreDifferent};
ghost use Rattle.ch_lists.specs.Ordered.{is_among, ordered};
ghost use Rattle.ch_keys.specs.Keys.{items_of};

use ch_cells::Memory;
use indexmap::IndexSet;
use std::alloc::Global;
use std::marker::Model;

/// Different rows of words, in the order in which they came.
#[derive(Drop)]
pub struct Keys {
    set: IndexSet<Vec<i64>>,
}

impl Model for Keys {
    ghost use Rattle.std.specs.Prelude.{List, ℤ, map};
    ghost use Rattle.ch_lists.specs.Members.{AreDifferent};
    ghost use Rattle.ch_keys.specs.Keys.{items_of};

    ghost Value = { List (List ℤ) };

    ghost view = { λ k. map items_of k.set.keys };

    ghost invariant = { λ k. AreDifferent (map items_of k.set.keys) };
}

impl Keys {
    /// No keys yet.
    pub fn new(alloc: Global) -> Keys
        ensures { result ≡ [] }
    {
        Keys {
            set: IndexSet::new(alloc),
        }
    }

    /// How many keys there are.
    #[tactic(auto, using(crate::proofs::Looked::items_length))]
    pub fn len(&self) -> usize
        ensures { result ≡ length self.now }
    {
        self.set.len()
    }

    /// Whether a key is there.
    pub fn has(&self, key: &[i64]) -> bool
        ensures { result ≡ is_among (slice_cmp int_cmp) key.now self.now }
    {
        self.set.contains(key)
    }

    /// The number of a key, if it is there: how many came before it.
    pub fn find(&self, key: &[i64]) -> Option<usize>
        ensures { result ≡ position (λ k. is_eq (slice_cmp int_cmp key.now k)) self.now }
    {
        self.set.get_index_of(key)
    }

    /// The key of a number.
    pub fn key(&self, number: usize) -> Option<&[i64]>
        ensures { option_map (λ key. key.now) result ≡ slice_get self.now number }
    {
        match self.set.get_index(number) {
            Some(key) => Some(key.as_slice()),
            None => None,
        }
    }

    /// The keys in ascending order: word by word from the first one on. No word is copied.
    pub fn sorted(&self, alloc: Global) -> Result<Vec<&[i64]>, Memory>
        ensures { IfOk result (λ rows. map (λ r. r.now) rows.items ≡ ordered (slice_cmp int_cmp) self.now) }
    {
        let mut rows = all_items(alloc, self.set.as_slice())?;
        rows.sort_unstable();
        Ok(rows)
    }

    /// Puts a key at the end, if it isn't there.
    pub fn add(&mut self, key: Vec<i64>) -> Result<(), Memory>
        ensures ok { OnOk result (self.new ≡ (if is_among (slice_cmp int_cmp) key.items self.old then self.old else self.old ++ key.items ∷ [])) }
        ensures err { OnErr result (self.new ≡ self.old) }
        ensures different { AreDifferent self.new }
    {
        self.set.insert(key)?;
        Ok(())
    }
}

/// The items of each vector.
fn all_items(alloc: Global, vectors: &[Vec<i64>]) -> Result<Vec<&[i64]>, Memory>
    ensures { IfOk result (λ rows. map (λ r. r.now) rows.items ≡ map items_of vectors.now) }
{
    let mut rows = Vec::new(alloc);
    for vector in vectors {
        rows.push(vector.as_slice())?;
    }
    Ok(rows)
}
