//! What holds of all words and files, as a contract of a function that does nothing.
ghost use Rattle.std.specs.Prelude.{ℕ, List};
ghost use Rattle.ch_command.specs.Command.{IsCommand};
ghost use Rattle.cheetah_check.specs.Result.{command_of};

/// Whatever the words are and whatever the files hold, the command comes to one thing; only the text that refuses words
/// isn't fixed.
pub fn words_are_commands()
    ensures { (words : List (List ℕ)) → IsCommand (command_of words) }
{}
