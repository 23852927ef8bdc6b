ghost use Rattle.std.specs.Prelude.{◌≡◌, ◌++◌, ◌∷◌, [], Bool, ℤ, List, IfOk, OnOk, OnErr, length};
ghost use Rattle.ch_pred.specs.Meaning.{best_of};
ghost use Rattle.ch_pred.specs.Values as values;
ghost use Rattle.ch_fold_laws.specs.Kept as laws;
ghost use Rattle.ch_fold_groups.specs.Kept.{KeepsGroups};
ghost use Rattle.ch_fold_groups.specs.Lines.{value_lines};

use crate::lines::push_line;
use ch_cells::Memory;
use ch_flat::Rows;
use ch_keys::Keys;
use std::alloc::Global;
use std::marker::Model;

/// Different keys, each with the best of its values.
#[derive(Drop)]
pub struct Bests {
    keys: Keys,
    /// The best value of each key, by the key's number.
    bests: Vec<i64>,
}

impl Model for Bests {
    ghost use Rattle.std.specs.Prelude.{◌≡◌, ℤ, length};
    ghost use Rattle.ch_fold_groups.specs.Kept.{Valued};

    ghost Value = { Valued ℤ };

    ghost view = { λ g. record { keys = g.keys; values = g.bests.items } };

    ghost invariant = { λ g. length g.bests.items ≡ length g.keys };
}

/// The better of two values.
fn better(max: bool, best: i64, value: i64) -> i64
    ensures { result ≡ laws.better max best value }
{
    if max {
        best.max(value)
    } else {
        best.min(value)
    }
}

impl Bests {
    /// No keys yet.
    pub fn new(alloc: Global) -> Bests
        ensures { result ≡ record { keys = []; values = [] } }
    {
        Bests {
            keys: Keys::new(alloc),
            bests: Vec::new(alloc),
        }
    }

    /// How many keys there are.
    pub fn len(&self) -> usize
        ensures { result ≡ length self.now.keys }
    {
        self.keys.len()
    }

    /// Takes in a value of a key.
    pub fn add(&mut self, max: bool, key: Vec<i64>, value: i64) -> Result<(), Memory>
        ensures ok { (groups : List (List ℤ × ℤ)) → KeepsGroups (best_of values.words max) groups self.old
            → OnOk result (KeepsGroups (best_of values.words max) (groups ++ (key.items, value) ∷ []) self.new) }
        ensures err { OnErr result (self.new ≡ self.old) }
    {
        match self.keys.find(key.as_slice()) {
            Some(number) => {
                self.bests[number] = better(max, self.bests[number], value);
                Ok(())
            }
            None => {
                self.bests.reserve(1)?;
                self.keys.add(key)?;
                self.bests.push_reserved(value);
                Ok(())
            }
        }
    }

    /// The words at some places of each key with its best value behind it.
    pub fn lines(&self, alloc: Global, places: &[usize]) -> Result<Rows, Memory>
        ensures { IfOk result (λ lines. lines ≡ record { width = length places.now; rows = value_lines places.now self.now.keys self.now.values }) }
    {
        let mut lines = Rows::new(alloc, places.len());
        for (number, best) in self.bests.iter().enumerate() {
            let key = self.keys.key(number).unwrap();
            push_line(alloc, &mut lines, key, *best, places)?;
        }
        Ok(lines)
    }
}
