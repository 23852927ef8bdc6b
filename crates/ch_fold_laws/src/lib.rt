//! What is kept of rows that come one by one, in a step for each row, over lists.
#![tactic(auto)]

ghost use Rattle.std.specs.Prelude.{◌≡◌, ◌++◌, ◌∷◌, [], ℕ, ℤ, Bool, List, Some, map, position, slice_set, take, ◌+ℤ◌};
ghost use Rattle.std.specs.declared.cmp.Ordering.{Ordering};
ghost use Rattle.std.specs.Ordering.{int_cmp, is_eq};
ghost use Rattle.std.specs.Cmp.Lexicographic.{slice_cmp};
ghost use Rattle.ch_lists.specs.Members.{In, AreDifferent};
ghost use Rattle.ch_lists.specs.Ordered.{placed, ordered, once, IsExactOrder, SameBag};
ghost use Rattle.ch_pred.specs.Meaning.{best_of, total, values_of};
ghost use Rattle.ch_pred.specs.Values.{words};
ghost use Rattle.ch_fold_laws.specs.Kept.{with_key, better, value_of};
ghost use Rattle.ch_fold_laws.specs.Worked.{WorkedSteps};

/// The different elements, in whatever order: a new one goes to the end, and one that is there changes nothing.
pub fn keys_kept<T>()
    ensures { (cmp : T → T → Ordering) → IsExactOrder cmp → (keys xs : List T) (x : T) → SameBag keys (once cmp xs) → SameBag (with_key cmp keys x) (once cmp (xs ++ x ∷ [])) }
{}

/// The first so many of the order: it is enough to keep them, and to place each new element among them.
pub fn firsts_kept<T>()
    ensures { (cmp : T → T → Ordering) → IsExactOrder cmp → (limit : ℕ) (xs : List T) (x : T)
        → take limit (ordered cmp (xs ++ x ∷ [])) ≡ take limit (placed cmp x (take limit (ordered cmp xs))) }
{}

/// The best of some values, from the best before and the new one.
pub fn bests_kept()
    ensures first { (max : Bool) (v : ℤ) → best_of words max (v ∷ []) ≡ v }
    ensures more { (max : Bool) (vs : List ℤ) (v w : ℤ) → best_of words max ((v ∷ vs) ++ w ∷ []) ≡ better max (best_of words max (v ∷ vs)) w }
{}

/// The sum of some values, from the sum before and the new one.
pub fn sums_kept()
    ensures { (vs : List ℤ) (v : ℤ) → total (vs ++ v ∷ []) ≡ total vs +ℤ v }
{}

/// A row of a key that is there changes the value of this key alone, at its place; a row of a new key adds its value at the
/// end. The value of a key is any function of the values of its rows.
pub fn values_kept<V>()
    ensures there { (made : List ℤ → V) (groups : List (List ℤ × ℤ)) (keys : List (List ℤ)) (key : List ℤ) (value : ℤ) (at : ℕ) → AreDifferent keys
        → position (λ k. is_eq (slice_cmp int_cmp key k)) keys ≡ Some at
        → slice_set (map (value_of made groups) keys) at (made (values_of int_cmp groups key ++ value ∷ [])) ≡ map (value_of made (groups ++ (key, value) ∷ [])) keys }
    ensures new { (made : List ℤ → V) (groups : List (List ℤ × ℤ)) (keys : List (List ℤ)) (key : List ℤ) (value : ℤ) → (In key keys → ⊥)
        → map (value_of made groups) keys ++ made (values_of int_cmp groups key ++ value ∷ []) ∷ [] ≡ map (value_of made (groups ++ (key, value) ∷ [])) (keys ++ key ∷ []) }
{}

/// Steps with their outcomes, computed.
pub fn worked()
    ensures { WorkedSteps }
{}
