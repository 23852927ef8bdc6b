//! What the words of the packing command mean, over the files: laws about definitions.
#![tactic(auto)]

ghost use Rattle.std.specs.Prelude.{ℕ, List};
ghost use Rattle.ch_command.specs.Command.{IsCommand};
ghost use Rattle.cheetah_pack_meaning.specs.Meaning.{command_of};

/// Whatever the words are and whatever the files hold, the command comes to one thing.
pub fn words_are_commands()
    ensures { (words : List (List ℕ)) → IsCommand (command_of words) }
{}
