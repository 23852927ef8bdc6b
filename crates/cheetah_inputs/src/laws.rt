ghost use Rattle.std.specs.Prelude.{◌≡◌, ◌≤◌, ◌^◌, ℕ, All, List, length, not, true, false};
ghost use Rattle.std.specs.List.{list_all};
ghost use Rattle.ch_asked.specs.Suits.{AreSmall};
ghost use Rattle.ch_asked.specs.Texts.{asked_texts, dictionary_of};
ghost use Rattle.ch_asked.specs.Scanned.{AreTables};
ghost use Rattle.ch_plan.specs.Kinds.{IsPlannable};
ghost use Rattle.ch_schedule.specs.Bad.{is_forged};
ghost use Rattle.cheetah_words.specs.Words.{Request};
ghost use Rattle.cheetah_inputs.specs.Inputs.{AreInputs};
ghost use Rattle.cheetah_inputs.specs.declared.inputs.Inputs.{Inputs};

/// The tables of a request that names at most 64 parts are at most 64, each with 1 to 64 parts of at most 4,000,000 rows.
pub fn read_tables_are_small()
    ensures { (request : Request) (contents : List (List ℕ)) (inputs : Inputs) → AreInputs request contents inputs → length request.tables ≤ 64 → AreSmall inputs.tables }
{}

/// A schedule that is read, and the one that only drains, has at most 1,000,000 steps, and no bytes of theirs are a packet.
pub fn read_schedules_can_be_run()
    ensures few { (request : Request) (contents : List (List ℕ)) (inputs : Inputs) → AreInputs request contents inputs → length inputs.schedule.steps ≤ 1000000 }
    ensures unforged { (request : Request) (contents : List (List ℕ)) (inputs : Inputs) → AreInputs request contents inputs → All (λ step. is_forged step ≡ false) inputs.schedule.steps }
    ensures fair { (request : Request) (contents : List (List ℕ)) (inputs : Inputs) → AreInputs request contents inputs
        → list_all (λ step. not (is_forged step)) inputs.schedule.steps ≡ true }
{}

/// The query that is read can be planned, and with its dictionary it can be asked of the tables that are read.
pub fn read_inputs_can_be_asked()
    ensures planned { (request : Request) (contents : List (List ℕ)) (inputs : Inputs) → AreInputs request contents inputs → IsPlannable inputs.bound inputs.bound.shape }
    ensures asked { (request : Request) (contents : List (List ℕ)) (inputs : Inputs) (texts : List (List ℕ)) → AreInputs request contents inputs
        → texts ≡ dictionary_of (asked_texts inputs.bound inputs.tables) → length texts ≤ 2 ^ 32 → AreTables texts inputs.bound inputs.tables }
{}
