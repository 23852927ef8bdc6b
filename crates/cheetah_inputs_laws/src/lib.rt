//! Laws of what the files of a command give: laws about definitions.
#![tactic(auto)]

ghost use Rattle.std.specs.Prelude.{◌≡◌, ◌≤◌, ◌^◌, ◌⊎◌, ℕ, List, None, length};
ghost use Rattle.ch_asked.specs.Texts.{asked_texts, dictionary_of};
ghost use Rattle.ch_bind.specs.Binding.{plain_bound};
ghost use Rattle.ch_command.specs.declared.outcome.Outcome.{Outcome};
ghost use Rattle.ch_plan.specs.Kinds.{IsPlanOf};
ghost use Rattle.ch_plan.specs.declared.kind.PlanKind.{PlanKind};
ghost use Rattle.cheetah_inputs.specs.Inputs.{AreInputs, Given, OfContents, given_of, never};
ghost use Rattle.cheetah_inputs.specs.Limits.{limit_exceeded};
ghost use Rattle.cheetah_inputs.specs.declared.inputs.Inputs.{Inputs};
ghost use Rattle.cheetah_words.specs.Words.{Request};
ghost use Rattle.cheetah_inputs_laws.specs.Read.{IsRefusedOrRead, answering};

/// The contents of a request's files are refused, or they give inputs, and never both. All such inputs give the same, and what
/// the contents come to is the refusal, or the answer over what is given.
pub fn contents_are_refused_or_read()
    ensures either { (request : Request) (contents : List (List ℕ)) → ((outcome : Outcome) × OfContents request never contents outcome) ⊎ ((inputs : Inputs) × AreInputs request contents inputs) }
    ensures apart { (request : Request) (contents : List (List ℕ)) (inputs : Inputs) (outcome : Outcome) → AreInputs request contents inputs → OfContents request never contents outcome → ⊥ }
    ensures one { (request : Request) (contents : List (List ℕ)) (a b : Inputs) → AreInputs request contents a → AreInputs request contents b → given_of a ≡ given_of b }
    ensures comes { (request : Request) (contents : List (List ℕ)) (answer : Given → Outcome) (outcome : Outcome) → OfContents request (answering answer) contents outcome
        → IsRefusedOrRead request contents (answering answer) outcome }
{}

/// A query that is read has a plan, where its need exceeds no limit of the profile.
pub fn queries_within_limits_are_planned()
    ensures { (request : Request) (contents : List (List ℕ)) (inputs : Inputs) → AreInputs request contents inputs → limit_exceeded (plain_bound inputs.bound) inputs.profile ≡ None
        → (kind : PlanKind) × IsPlanOf kind inputs.bound inputs.profile }
{}

/// The dictionary of a query that is read has at most 2^32 texts, as many as there are ranks.
pub fn dictionaries_are_small()
    ensures { (request : Request) (contents : List (List ℕ)) (inputs : Inputs) → AreInputs request contents inputs → length (dictionary_of (asked_texts inputs.bound inputs.tables)) ≤ 2 ^ 32 }
{}
