//! What holds of all requests, as contracts of functions that do nothing.
ghost use Rattle.std.specs.Prelude.{◌≡◌, Ok};
ghost use Rattle.ch_command.specs.Reading.{read_all};
ghost use Rattle.ch_generated.specs.Inputs.{command_words, files_of};
ghost use Rattle.ch_generated.specs.declared.InputKind.{InputKind};
ghost use Rattle.ch_generated.specs.declared.Request.{Request};
ghost use Rattle.cheetah_gen_words.specs.Asked.{asked_of, names_asked};
ghost use Rattle.cheetah_gen_words.specs.Files.{AreShort, contents_of, files_told};
ghost use Rattle.cheetah_words.specs.Words.{Asking, wish_of};

/// The words of the command are taken, and ask for the query over the generated files along the generated schedule.
pub fn generated_words_are_taken()
    ensures { (kind : InputKind) → wish_of (command_words kind) ≡ Asking (asked_of kind) }
{}

/// Each of the files is there, and all are read whole where they are short enough.
pub fn generated_files_are_read()
    ensures { (request : Request) → AreShort (files_of request) → read_all (files_told request) (names_asked request.kind) ≡ Ok (contents_of request) }
{}
