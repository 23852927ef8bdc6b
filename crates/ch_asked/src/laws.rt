ghost use Rattle.std.specs.Prelude.{◌≡◌, ◌<◌, ◌≤◌, ◌+◌, ◌^◌, ℕ, All, List, Ok, None, map, length, bytes_eq, slice_index, true};
ghost use Rattle.std.specs.List.{list_any};
ghost use Rattle.ch_lists.specs.Members.{Each};
ghost use Rattle.ch_plan.specs.Kinds.{IsPlannable};
ghost use Rattle.ch_pred.specs.Sound.{IsSound};
ghost use Rattle.ch_pred.specs.declared.bound.Bound.{Bound};
ghost use Rattle.ch_ranks.specs.Dictionary.{Ascends};
ghost use Rattle.ch_sql.specs.Parsed.{IsParsed};
ghost use Rattle.ch_sql_grammar.specs.Tree.{Select};
ghost use Rattle.ch_tables.specs.Table.{table_of};
ghost use Rattle.ch_tables.specs.TableValue.{TableValue};
ghost use Rattle.ch_tables.specs.declared.error.Room.{Room};
ghost use Rattle.ch_bind.specs.Binding.{bound_of, plain_bound};
ghost use Rattle.ch_bind.specs.Checks.{bind_refusal};
ghost use Rattle.ch_bind.specs.Sums.{sum_refusal};
ghost use Rattle.ch_parts.specs.Scanned.{AreTables, parts_of};
ghost use Rattle.ch_parts.specs.Team.{sizes_of};
ghost use Rattle.ch_asked.specs.Suits.{AreSmall, IsBoundTo, IsTyped};
ghost use Rattle.ch_bind.specs.Shapes.{shape_of};
ghost use Rattle.ch_asked.specs.Texts.{asked_texts, dictionary_of};

/// A dictionary ascends, has exactly the texts that it is of, and is the only list of texts that does.
pub fn dictionaries_are_exact()
    ensures ascends { (texts : List (List ℕ)) → Ascends (dictionary_of texts) }
    ensures same { (texts : List (List ℕ)) (text : List ℕ) → list_any (bytes_eq text) (dictionary_of texts) ≡ list_any (bytes_eq text) texts }
    ensures only { (texts ranks : List (List ℕ)) → Ascends ranks → ((text : List ℕ) → list_any (bytes_eq text) ranks ≡ list_any (bytes_eq text) texts) → ranks ≡ dictionary_of texts }
{}

/// Each cell of a table that is read is of its column's kind.
pub fn read_tables_are_typed()
    ensures { (name : List ℕ) (room : Room) (parts : List (List ℕ)) (table : TableValue) → 0 < length parts → table_of name room parts ≡ Ok table → IsTyped table }
{}

/// A sound query that binding gives is bound to the tables, where no summed cell is negative.
pub fn bound_queries_suit()
    ensures { (q : Select) (b : Bound) (tables : List TableValue) → bind_refusal q (map shape_of tables) ≡ None → plain_bound b ≡ bound_of q (map shape_of tables)
        → IsSound b → sum_refusal b tables ≡ None → IsBoundTo b tables }
{}

/// A sound query that binding gives of one that was parsed can be planned.
pub fn bound_queries_are_plannable()
    ensures { (q : Select) (b : Bound) (tables : List TableValue) → IsParsed q → bind_refusal q (map shape_of tables) ≡ None → plain_bound b ≡ bound_of q (map shape_of tables)
        → IsSound b → IsPlannable b b.shape }
{}

/// A query that is bound to tables can be asked of them, by a dictionary that has its texts.
pub fn suited_tables_are_asked()
    ensures { (texts : List (List ℕ)) (b : Bound) (tables : List TableValue) → IsBoundTo b tables → Each IsTyped tables → Ascends texts → length texts ≤ 2 ^ 32
        → ((text : List ℕ) → list_any (bytes_eq text) (asked_texts b tables) ≡ true → list_any (bytes_eq text) texts ≡ true) → AreTables texts b tables }
{}

/// There are workers for a query of tables that are small, they are at most 65,536, and the numbers of each, with its Fin's,
/// are below 2^32.
pub fn workers_are_few()
    ensures some { (texts : List (List ℕ)) (b : Bound) (tables : List TableValue) → IsSound b → All (λ number. number < length tables) b.tables → AreSmall tables
        → 0 < length (parts_of texts b tables) }
    ensures many { (texts : List (List ℕ)) (b : Bound) (tables : List TableValue) → IsSound b → AreSmall tables → length (parts_of texts b tables) ≤ 65536 }
    ensures sizes { (texts : List (List ℕ)) (b : Bound) (tables : List TableValue) → AreSmall tables
        → (w : ℕ) → w < length (parts_of texts b tables) → slice_index (sizes_of (parts_of texts b tables)) w + 1 < 2 ^ 32 }
{}
