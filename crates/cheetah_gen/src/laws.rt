//! What holds of all words, as contracts of functions that do nothing.
ghost use Rattle.std.specs.Prelude.{◌≡◌, ℕ, List, Some};
ghost use Rattle.ch_command.specs.Command.{IsCommand};
ghost use Rattle.ch_command.specs.declared.Outcome.{Outcome};
ghost use Rattle.ch_generated.specs.Inputs.{command_words};
ghost use Rattle.ch_generated.specs.Request.{request_of};
ghost use Rattle.ch_generated.specs.declared.Request.{Request};
ghost use Rattle.ch_generated_laws.specs.Tables.{IsInRange};
ghost use Rattle.ch_outside.specs.Shelf.{Files};
ghost use Rattle.cheetah.specs.Complete.{IsAnswerable};
ghost use Rattle.cheetah_gen.specs.Given.{given_by};
ghost use Rattle.cheetah_gen.specs.Result.{command_of, sum_of};
ghost use Rattle.cheetah_gen_words.specs.Files.{files_told};
ghost use Rattle.cheetah.specs.Saying.{said_by_run};

/// `cheetah` must answer each query over the generated files: its words are taken, every file is there and small enough,
/// every text is accepted, every need is within the default profile, and the schedule ends in drain.
pub fn generated_requests_are_answerable()
    ensures { (request : Request) → IsInRange request → IsAnswerable (command_words request.kind) (files_told request) }
{}

/// Whatever the words are, the command comes to one thing.
pub fn words_are_commands()
    ensures { (words : List (List ℕ)) → IsCommand (command_of words) }
{}

/// Words that ask for inputs come to the summary of what the run over them writes. It is always an answer.
pub fn requests_are_summed_up()
    ensures { (words : List (List ℕ)) (request : Request) (files : Files) (outcome : Outcome) → request_of words ≡ Some request → (command_of words).comes_to files outcome
        → outcome ≡ sum_of request.kind (said_by_run (given_by request)) }
{}
