ghost use Rattle.std.specs.Prelude.{◌≡◌, ◌<◌, ◌+◌, ◌^◌, ℕ, All, List, bytes_eq, length, true, OnOk};
ghost use Rattle.std.specs.List.{list_any};
ghost use Rattle.ch_tables.specs.Texts.{texts_of, with_texts};

use ch_cells::Memory;
use ch_ranks::RanksBuilder;
use ch_tables::Table;

/// Adds the texts of a table to a dictionary.
pub fn add_texts(builder: &mut RanksBuilder, table: &Table) -> Result<(), Memory>
    requires { length builder.old + length (texts_of table.now) < 2 ^ 32 }
    ensures { OnOk result (builder.new ≡ with_texts builder.old (texts_of table.now)) }
{
    for at in 0..table.texts() {
        builder.add(table.text(at))?;
    }
    Ok(())
}

/// Each text that is added to a dictionary is there.
pub fn dictionaries_have_their_texts()
    ensures { (texts more : List (List ℕ)) → All (λ text. list_any (bytes_eq text) (with_texts texts more) ≡ true) more }
{}
