//! What holds of all words and files, as contracts of functions that do nothing.
ghost use Rattle.std.specs.Prelude.{ℕ, List};
ghost use Rattle.ch_command.specs.Command.{IsCommand};
ghost use Rattle.cheetah_audit.specs.Result.{command_of};

/// Whatever the words are and whatever the files hold, the command comes to one thing.
pub fn words_are_commands()
    ensures { (words : List (List ℕ)) → IsCommand (command_of words) }
{}
