//! What holds of all words and files, as contracts of functions that do nothing.
ghost use Rattle.std.specs.Prelude.{◌≡◌, ◌≤◌, ℕ, true, length, List, None};
ghost use Rattle.ch_command.specs.Command.{IsCommand};
ghost use Rattle.ch_command.specs.declared.outcome.Ending.TheVariants as ending;
ghost use Rattle.ch_command.specs.declared.outcome.Outcome.{Outcome};
ghost use Rattle.ch_outside.specs.Shelf.{Files};
ghost use Rattle.cheetah_inputs.specs.Inputs.{AreInputs, given_of};
ghost use Rattle.cheetah_inputs.specs.Limits.{limit_exceeded};
ghost use Rattle.cheetah_inputs.specs.declared.inputs.Inputs.{Inputs};
ghost use Rattle.cheetah_words.specs.Words.{Request};
ghost use Rattle.cheetah.specs.Answering.{outcome_of};
ghost use Rattle.cheetah.specs.Complete.{IsAnswerable};
ghost use Rattle.cheetah.specs.Result.{command_of};

/// Whatever the words are and whatever the files hold, the command comes to one thing; only the text with which `clap`
/// refuses words isn't fixed.
pub fn words_are_commands()
    ensures { (words : List (List ℕ)) → IsCommand (command_of words) }
{}

/// What is read and planned, with a schedule that ends in drain, is answered.
pub fn drained_requests_are_never_open()
    ensures { (request : Request) (contents : List (List ℕ)) (inputs : Inputs) → AreInputs request contents inputs → length request.tables ≤ 64 → inputs.schedule.drain ≡ true
        → limit_exceeded (given_of inputs).query inputs.profile ≡ None → (outcome_of request.plan (given_of inputs)).ending ≡ ending.Done }
{}

/// Words that are taken come to an answer and nothing else, where every file and text that they name is accepted, every need
/// is within the profile, and the schedule confirms or ends in drain.
pub fn accepted_requests_are_answered()
    ensures { (words : List (List ℕ)) (files : Files) (outcome : Outcome) → IsAnswerable words files → (command_of words).comes_to files outcome → outcome.ending ≡ ending.Done }
{}
