ghost use Rattle.std.specs.Prelude.{◌≡◌, ◌≤◌};
ghost use Rattle.std.specs.Prelude.{length};
ghost use Rattle.ch_cells.specs.Number.{is_digit};
ghost use Rattle.ch_sql_tokens.specs.Byte.{is_letter, is_word_byte, is_blank, run};

/// Whether a word may begin with the byte.
pub fn is_word_start(byte: u8) -> bool
    ensures { result ≡ is_letter byte }
{
    byte == b'_' || (byte >= b'a' && byte <= b'z') || (byte >= b'A' && byte <= b'Z')
}

pub fn is_in_word(byte: u8) -> bool
    ensures { result ≡ is_word_byte byte }
{
    is_word_start(byte) || byte.is_ascii_digit()
}

/// Whether the byte only separates tokens.
pub fn is_separator(byte: u8) -> bool
    ensures { result ≡ is_blank byte }
{
    byte == b' ' || byte == b'\t' || byte == b'\r' || byte == b'\n'
}

/// How many bytes at the front may stand in a word.
pub fn word_len(text: &[u8]) -> usize
    ensures value { result ≡ run is_word_byte text.now }
    ensures within { result ≤ length text.now }
{
    let mut at = 0;
    while at < text.len() && is_in_word(text[at]) {
        at += 1;
    }
    at
}

/// How many digits stand at the front.
pub fn digits_len(text: &[u8]) -> usize
    ensures value { result ≡ run is_digit text.now }
    ensures within { result ≤ length text.now }
{
    let mut at = 0;
    while at < text.len() && text[at].is_ascii_digit() {
        at += 1;
    }
    at
}
