//! A planned query in a run: what a run needs of its program and rows follows from the plan, and the answer survives.
//!
//! The functions here have empty bodies, and their contracts are the theorems.
#![tactic(auto)]

ghost use Rattle.std.specs.Prelude.{◌≡◌, ◌≤◌, ℕ, Bool, true, List, IsPermutation};
ghost use Rattle.ch_cells.specs.declared.Cell.{Cell};
ghost use Rattle.ch_cells.specs.declared.Kind.{Kind};
ghost use Rattle.ch_cover.specs.Rows.{AreRows, Row};
ghost use Rattle.ch_ir.specs.declared.profile.Profile.{Profile};
ghost use Rattle.ch_pred.specs.Meaning.{answer};
ghost use Rattle.ch_pred.specs.declared.bound.Bound.{Bound};
ghost use Rattle.ch_words.specs.Packets.{AreSound, all_sent};
ghost use Rattle.ch_words.specs.Ranks.{read_by};
ghost use Rattle.ch_words.specs.Rows.{Gate, GateFits, answer_over};
ghost use Rattle.ch_words.specs.Words.{Reading, asked_of_words, read_answer};
ghost use Rattle.ch_prune.specs.Sent.{is_sent};
ghost use Rattle.ch_plan.specs.Needs.{greatest_length};
ghost use Rattle.ch_plan.specs.Kinds.{Covers, IsPlanOf, kind_policy, kind_times};
ghost use Rattle.ch_plan.specs.declared.kind.PlanKind.{PlanKind};
ghost use Rattle.ch_protocol.specs.Machine.{Config, IsReached, State, passes, stopped};
ghost use Rattle.ch_protocol.specs.Received.{all_rows, rows_arrived};
ghost use Rattle.ch_survival.specs.Asked.{IsAsked, answer_arrived, asked_gate, asked_rows};
ghost use Rattle.ch_survival.specs.Given.{AreParts, IsPlanned, given_of};
ghost use Rattle.ch_survival.specs.Worked.{FilterSurvives};

/// What workers send of a query's tables passes the test of its rows.
pub fn rows_are_sent()
    ensures { (texts : List (List ℕ)) (b : Bound) (tables : List (List (List Cell))) → IsAsked texts b tables → AreRows (is_sent (asked_gate texts b) b) (asked_rows texts b tables) }
{}

/// A plan of a query and parts whose rows are those that workers send of it make what a run may be started with.
pub fn plans_start()
    ensures rows { (k : PlanKind) (d : Reading) (b : Bound) (profile : Profile) (gate : Gate) → IsPlanOf k b profile → greatest_length b.carried ≤ 16 → GateFits gate (asked_of_words d b) b.shape
        → (c : Config) → AreParts c → c.prunes ≡ kind_policy k → AreRows (is_sent gate b) (all_rows c) → IsPlanned (given_of k gate b c) }
    ensures tables { (texts : List (List ℕ)) (b : Bound) (tables : List (List (List Cell))) (k : PlanKind) (profile : Profile) → IsAsked texts b tables → IsPlanOf k b profile → greatest_length b.carried ≤ 16
        → (c : Config) → AreParts c → c.prunes ≡ kind_policy k → IsPermutation (asked_rows texts b tables) (all_rows c) → IsPlanned (given_of k (asked_gate texts b) b c) }
{}

/// Once a run has stopped whose workers have the rows of the tables, and whose policy covers the query over them, the answer
/// over the tables is the answer over what the master received in the last pass, in the order in which it came, read.
pub fn covered_answers_survive()
    ensures { (texts : List (List ℕ)) (kinds : ℕ → ℕ → Kind) (b : Bound) (tables : List (List (List Cell))) (gate : Gate) → AreSound texts kinds b tables
        → (is_row : Row → Bool) → AreRows is_row (all_sent texts gate b tables) → (c : Config) (s : State) → Covers (passes c) is_row c.prunes (answer_over (read_by texts kinds) b)
        → IsPermutation (all_sent texts gate b tables) (all_rows c) → IsReached c s → stopped c s ≡ true
        → answer b tables ≡ read_answer (read_by texts kinds) b (answer_over (read_by texts kinds) b (rows_arrived c (passes c) s.received)) }
{}

/// So it is for each plan of a query, whatever the links lose, repeat or reorder and whenever the switch restarts.
pub fn planned_answers_survive()
    ensures { (texts : List (List ℕ)) (b : Bound) (tables : List (List (List Cell))) (k : PlanKind) (profile : Profile) → IsAsked texts b tables → IsPlanOf k b profile
        → (c : Config) (s : State) → c.prunes ≡ kind_policy k → passes c ≡ kind_times k → IsPermutation (asked_rows texts b tables) (all_rows c)
        → IsReached c s → stopped c s ≡ true → answer b tables ≡ answer_arrived texts b (rows_arrived c (passes c) s.received) }
{}

/// The premises can be met: a query and its table with a plan, the rows that are sent of it, and its answer without the one
/// that may be pruned.
pub fn worked()
    ensures { FilterSurvives }
{}
