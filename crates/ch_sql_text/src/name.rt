ghost use Rattle.std.specs.Prelude.{◌≡◌};
ghost use Rattle.std.specs.List.{list_all};
ghost use Rattle.ch_sql_tokens.specs.Byte.{is_letter, is_word_byte};
ghost use Rattle.ch_sql_tokens.specs.Spelling.{is_word};
ghost use Rattle.ch_sql_text.specs.Spelled.{is_bare};

use ch_sql_grammar::keyword_in;

fn is_word_start(byte: u8) -> bool
    ensures { result ≡ is_letter byte }
{
    byte == b'_' || (byte >= b'a' && byte <= b'z') || (byte >= b'A' && byte <= b'Z')
}

fn is_in_word(byte: u8) -> bool
    ensures { result ≡ is_word_byte byte }
{
    is_word_start(byte) || byte.is_ascii_digit()
}

fn are_in_word(bytes: &[u8]) -> bool
    ensures { result ≡ list_all is_word_byte bytes.now }
{
    for byte in bytes {
        if !is_in_word(*byte) {
            return false;
        }
    }
    true
}

fn spells_word(name: &[u8]) -> bool
    ensures { result ≡ is_word name.now }
{
    match name {
        [] => false,
        [first, rest @ ..] => is_word_start(*first) && are_in_word(rest),
    }
}

/// Whether the name needs no quotes.
pub fn needs_no_quotes(name: &[u8]) -> bool
    ensures { result ≡ is_bare name.now }
{
    spells_word(name) && keyword_in(name).is_none()
}
