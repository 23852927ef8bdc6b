ghost use Rattle.std.specs.Prelude.{◌≡◌, ◌++◌, ◌∷◌, [], OnOk, if◌then◌else◌};
ghost use Rattle.ch_sql_tokens.specs.Spelling.{doubled, in_quotes, spelling};
ghost use Rattle.ch_sql_text.specs.Spelled.{name_token};

use crate::name::needs_no_quotes;
use ch_cells::Memory;

pub fn put_space(text: &mut Vec<u8>, wanted: bool) -> Result<(), Memory>
    ensures { OnOk result (text.new.items ≡ text.old.items ++ (if wanted then 32 ∷ [] else [])) }
{
    if wanted {
        text.push(b' ')?;
    }
    Ok(())
}

/// The name, in quotes where it needs them.
pub fn put_name(text: &mut Vec<u8>, name: &[u8]) -> Result<(), Memory>
    ensures { OnOk result (text.new.items ≡ text.old.items ++ spelling (name_token name.now)) }
{
    if needs_no_quotes(name) {
        text.extend_from_slice(name)?;
        Ok(())
    } else {
        put_quoted(text, b'"', name)
    }
}

pub fn put_quoted(text: &mut Vec<u8>, quote: u8, content: &[u8]) -> Result<(), Memory>
    ensures { OnOk result (text.new.items ≡ text.old.items ++ in_quotes quote content.now) }
{
    text.push(quote)?;
    put_doubled(text, quote, content)?;
    text.push(quote)?;
    Ok(())
}

/// The prefix and a percent sign, in quotes.
pub fn put_pattern(text: &mut Vec<u8>, prefix: &[u8]) -> Result<(), Memory>
    ensures { OnOk result (text.new.items ≡ text.old.items ++ in_quotes 39 (prefix.now ++ 37 ∷ [])) }
{
    text.push(b'\'')?;
    put_doubled(text, b'\'', prefix)?;
    text.extend_from_slice(b"%'")?;
    Ok(())
}

/// The content, with each quote twice.
fn put_doubled(text: &mut Vec<u8>, quote: u8, content: &[u8]) -> Result<(), Memory>
    ensures { OnOk result (text.new.items ≡ text.old.items ++ doubled quote content.now) }
{
    for byte in content {
        if *byte == quote {
            text.push(quote)?;
        }
        text.push(*byte)?;
    }
    Ok(())
}
