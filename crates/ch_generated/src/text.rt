//! Each function writes at the end of the text.
ghost use Rattle.std.specs.Prelude.{◌≡◌, ◌++◌, ◌∷◌, [], OnOk};
ghost use Rattle.std.specs.Fmt.{decimal};

use ch_cells::Memory;
use itoa::Buffer;

pub(crate) fn push_bytes(text: &mut Vec<u8>, bytes: &[u8]) -> Result<(), Memory>
    ensures { OnOk result (text.new.items ≡ text.old.items ++ bytes.now) }
{
    text.extend_from_slice(bytes)?;
    Ok(())
}

/// Writes a number and a byte behind it.
pub(crate) fn push_number(text: &mut Vec<u8>, n: u32, end: u8) -> Result<(), Memory>
    ensures { OnOk result (text.new.items ≡ text.old.items ++ (decimal n ++ end ∷ [])) }
{
    let mut digits = Buffer::new();
    push_bytes(text, digits.format(n).as_bytes())?;
    text.push(end)?;
    Ok(())
}
