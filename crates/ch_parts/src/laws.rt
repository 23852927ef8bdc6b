ghost use Rattle.std.specs.Prelude.{◌≡◌, ℕ, List, IsPermutation};
ghost use Rattle.ch_pred.specs.declared.bound.Bound.{Bound};
ghost use Rattle.ch_protocol.specs.Machine.{Config};
ghost use Rattle.ch_protocol.specs.Received.{all_rows};
ghost use Rattle.ch_stands.specs.Asked.{asked_rows};
ghost use Rattle.ch_tables.specs.TableValue.{TableValue};
ghost use Rattle.ch_parts.specs.Scanned.{AreTables, asked_tables, parts_of};

/// The rows of the workers are those that are sent of the query's tables, in whichever order the tables are given.
pub fn parts_have_rows()
    ensures { (texts : List (List ℕ)) (b : Bound) (tables : List TableValue) → AreTables texts b tables → (c : Config) → c.parts ≡ parts_of texts b tables
        → IsPermutation (asked_rows texts b (asked_tables b tables)) (all_rows c) }
{}
