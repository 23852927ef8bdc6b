//! What the protocol guarantees: functions with empty bodies, whose contracts are the theorems.
//!
//! A state is reached where some list of events, with any losses, repeats, reorderings and restarts, leads to it from the
//! start.
#![tactic(auto)]

ghost use Rattle.std.specs.Prelude.{◌≡◌, ◌≢◌, ◌⊎◌, ◌<◌, ◌≤◌, ℕ, Bool, true, false, List, [], ◌++◌, IsPermutation};
ghost use Rattle.ch_lists.specs.Members.{Each, AreDifferent};
ghost use Rattle.ch_protocol.specs.Sender.{least_open};
ghost use Rattle.ch_protocol.specs.Machine.{Config, State, Event, IsReached, start, step, run, stopped, passes, size, workers, can_send};
ghost use Rattle.ch_protocol.specs.Drain.{IsPast, repeat, take_turn, round, most_rounds, drain};
ghost use Rattle.ch_protocol.specs.DrainEvents.{drain_events, AreMade};
ghost use Rattle.ch_protocol.specs.Outcome.{outcome, report, after_schedule};
ghost use Rattle.ch_protocol.specs.Outcome.Outcome.{Done};
ghost use Rattle.ch_cover.specs.Rows.{AreRows, Row};
ghost use Rattle.ch_cover.specs.Cover.{CoversOnce, CoversTwice};
ghost use Rattle.ch_cover.specs.Samples.{is_gated, greatest, below_greatest, how_many, by_bit, keys, but_first_of_key};
ghost use Rattle.ch_protocol.specs.Received.{all_rows, rows_received, names_arrived, rows_arrived};
ghost use Rattle.ch_protocol.specs.Invariant.{IsSound};
ghost use Rattle.ch_protocol_laws.specs.Always.{AreLinksKnown, IsNoEpochAbove, AreProcessedInOrder, EndBelowExpected, AreExactlyBelowExpected, IsHistoryOrdered, AreVerdictsGiven, IsFirstPassWhole, AreOtherPassesExpected, IsExpectedSent, AreReceivedOnce, IsDownBelowExpected, AreAcksTrue, AreAckedSettled, IsPrunedInFirstEpoch, IsFinLast};
ghost use Rattle.ch_protocol_laws.specs.Settled.{AreAllSettled, AreMissingPruned, AreKeptReceived};

/// Each event leads from a reached state to a reached one, and so does drain.
pub fn reach()
    ensures start { (c : Config) → IsReached c (start c) }
    ensures event { (c : Config) (s : State) (e : Event) → IsReached c s → IsReached c (step c s e) }
    ensures drain { (c : Config) (s : State) → IsReached c s → IsReached c (drain c s) }
{}

/// In every reached state the invariant holds, and each event keeps it.
pub fn invariant()
    ensures reached { (c : Config) (s : State) → IsReached c s → IsSound c s }
    ensures start { (c : Config) → IsSound c (start c) }
    ensures event { (c : Config) (s : State) (e : Event) → IsSound c s → IsSound c (step c s e) }
{}

/// What holds of the links and of the numbers in every reached state.
pub fn always_on_links()
    ensures links_known { (c : Config) (s : State) → IsReached c s → AreLinksKnown c s }
    ensures no_epoch_above { (c : Config) (s : State) → IsReached c s → IsNoEpochAbove s }
    ensures down_below_expected { (c : Config) (s : State) → IsReached c s → IsDownBelowExpected s }
    ensures acks_true { (c : Config) (s : State) → IsReached c s → AreAcksTrue s }

    ensures pass_in_range { (c : Config) (s : State) → IsReached c s → (1 ≤ s.pass) × (s.pass ≤ passes c) }
    ensures other_passes_expected { (c : Config) (s : State) → IsReached c s → AreOtherPassesExpected c s }
    ensures expected_sent { (c : Config) (s : State) → IsReached c s → IsExpectedSent c s }
    ensures fin_last { (c : Config) (s : State) → IsReached c s → IsFinLast c s }
{}

/// What holds of the rows that were processed, received and acknowledged in every reached state.
pub fn always_on_rows()
    ensures processed_in_order { (c : Config) (s : State) → IsReached c s → AreProcessedInOrder s }
    ensures end_below_expected { (c : Config) (s : State) → IsReached c s → EndBelowExpected c s }
    ensures exactly_below_expected { (c : Config) (s : State) → IsReached c s → AreExactlyBelowExpected c s }
    ensures history_ordered { (c : Config) (s : State) → IsReached c s → IsHistoryOrdered s }
    ensures verdicts_given { (c : Config) (s : State) → IsReached c s → AreVerdictsGiven c s }
    ensures first_pass_whole { (c : Config) (s : State) → IsReached c s → IsFirstPassWhole c s }
    ensures pruned_in_first_epoch { (c : Config) (s : State) → IsReached c s → IsPrunedInFirstEpoch c s }

    ensures received_once { (c : Config) (s : State) → IsReached c s → AreReceivedOnce s }
    ensures acked_settled { (c : Config) (s : State) → IsReached c s → AreAckedSettled c s }
{}

/// What became of each row of the last pass, once the run has stopped.
pub fn settled()
    ensures all { (c : Config) (s : State) → IsReached c s → stopped c s ≡ true → AreAllSettled c s }
    ensures missing_pruned { (c : Config) (s : State) → c.two_passes ≡ true → IsReached c s → stopped c s ≡ true → AreMissingPruned c s }
    ensures kept_received { (c : Config) (s : State) → c.two_passes ≡ true → IsReached c s → stopped c s ≡ true → AreKeptReceived c s }
{}

/// In a kind with one pass the answer over what the master received is that over all rows, once the run has stopped; in
/// whichever order the rows are taken, also in that in which they came.
pub fn one_pass<A>()
    ensures received { (c : Config) (is_row : Row → Bool) (answer : List Row → A) (s : State) → c.two_passes ≡ false → CoversOnce is_row c.prunes answer → AreRows is_row (all_rows c)
        → IsReached c s → stopped c s ≡ true
        → answer (rows_received c (passes c) s.received) ≡ answer (all_rows c) }
    ensures arrived { (c : Config) (is_row : Row → Bool) (answer : List Row → A) (s : State) → c.two_passes ≡ false → CoversOnce is_row c.prunes answer → AreRows is_row (all_rows c)
        → IsReached c s → stopped c s ≡ true
        → answer (rows_arrived c (passes c) s.received) ≡ answer (all_rows c) }
{}

/// The same in a kind with two passes.
pub fn two_passes<A>()
    ensures received { (c : Config) (is_row : Row → Bool) (answer : List Row → A) (s : State) → c.two_passes ≡ true → CoversTwice is_row c.prunes answer → AreRows is_row (all_rows c)
        → IsReached c s → stopped c s ≡ true
        → answer (rows_received c (passes c) s.received) ≡ answer (all_rows c) }
    ensures arrived { (c : Config) (is_row : Row → Bool) (answer : List Row → A) (s : State) → c.two_passes ≡ true → CoversTwice is_row c.prunes answer → AreRows is_row (all_rows c)
        → IsReached c s → stopped c s ≡ true
        → answer (rows_arrived c (passes c) s.received) ≡ answer (all_rows c) }
{}

/// What the master received in a pass, in every reached state: each row once and rows of the workers alone, and in the
/// order in which they came the same rows.
pub fn received_in_order()
    ensures different { (c : Config) (s : State) (pass : ℕ) → IsReached c s → AreDifferent (names_arrived c pass s.received) }
    ensures rows { (c : Config) (s : State) (pass : ℕ) → IsReached c s → Each (λ x. (x.pass ≡ pass) × (x.worker < workers c) × (x.number < size c x.worker)) (names_arrived c pass s.received) }
    ensures test { (c : Config) (s : State) (is_row : Row → Bool) (pass : ℕ) → IsReached c s → AreRows is_row (all_rows c) → AreRows is_row (rows_arrived c pass s.received) }
    ensures same { (c : Config) (s : State) (pass : ℕ) → IsPermutation (rows_received c pass s.received) (rows_arrived c pass s.received) }
{}

/// From every reached state each pass is over after so many rounds, and drain stops the run, where there is a worker and
/// the window has room for a number.
pub fn drains()
    ensures pass { (c : Config) (s : State) → 0 < workers c → 1 ≤ c.window → IsReached c s → IsPast c s.pass (repeat (round c) (most_rounds c) s) }
    ensures stops { (c : Config) (s : State) → 0 < workers c → 1 ≤ c.window → IsReached c s → stopped c (drain c s) ≡ true }

    // a round acknowledges each worker's least open number, unless the pass is over
    ensures round { (c : Config) (s : State) → 0 < workers c → 1 ≤ c.window → IsReached c s → IsPast c s.pass (round c s)
        ⊎ ((w : ℕ) → w < workers c → least_open (size c w) (s.acked w) ≤ size c w → (round c s).acked w (least_open (size c w) (s.acked w)) ≡ true) }

    // a turn's sends end where a send would put nothing on the link, and a round of a run that has stopped does nothing
    ensures turn { (c : Config) (s : State) (w : ℕ) → 0 < workers c → 1 ≤ c.window → w < workers c → IsReached c s → can_send c (take_turn c w s) w ≡ false }
    ensures stopped { (c : Config) (s : State) → stopped c s ≡ true → round c s ≡ s }
{}

/// Drain is the run of a list of events, each of which does something, and none of which comes after the stop. So a
/// schedule with its drain is a list of events.
pub fn drain_is_events()
    ensures same { (c : Config) (s : State) → run c (drain_events c s) s ≡ drain c s }
    ensures made { (c : Config) (s : State) → 0 < workers c → 1 ≤ c.window → IsReached c s → AreMade c (drain_events c s) s }
    ensures schedule { (c : Config) (events : List Event) → after_schedule c events true ≡ run c (events ++ drain_events c (run c events (start c))) (start c) }
{}

/// A schedule leads to a reached state. One that ends in drain is done, and a run that hasn't stopped names a worker that
/// is open, where there is a worker and the window has room for a number.
pub fn outcomes()
    ensures reached { (c : Config) (events : List Event) (drains : Bool) → IsReached c (after_schedule c events drains) }
    ensures done { (c : Config) (events : List Event) → 0 < workers c → 1 ≤ c.window
        → outcome c (after_schedule c events true) ≡ Done (after_schedule c events true).counts }
    ensures named { (c : Config) (s : State) → 0 < workers c → 1 ≤ c.window → IsReached c s → stopped c s ≡ false → report c s ≢ [] }
{}

/// The theorems at small policies that meet their laws: with one pass the greatest key is that of all rows, or, where each
/// row's bit says whether its key is above 4, the number of those rows is; with two passes and a memory of the second the
/// set of the keys is.
pub fn samples()
    ensures greatest { (c : Config) (s : State) → c.two_passes ≡ false → c.prunes ≡ below_greatest → IsReached c s → stopped c s ≡ true
        → greatest (rows_received c (passes c) s.received) ≡ greatest (all_rows c) }
    ensures gated { (c : Config) (s : State) → c.two_passes ≡ false → c.prunes ≡ by_bit → AreRows is_gated (all_rows c) → IsReached c s → stopped c s ≡ true
        → how_many (rows_received c (passes c) s.received) ≡ how_many (all_rows c) }
    ensures keys { (c : Config) (s : State) → c.two_passes ≡ true → c.prunes ≡ but_first_of_key → IsReached c s → stopped c s ≡ true
        → keys (rows_received c (passes c) s.received) ≡ keys (all_rows c) }
{}
