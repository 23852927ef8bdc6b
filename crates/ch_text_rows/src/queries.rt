//! Query texts, their words and their tokens.
use ch_cells::Listed;
use ch_sql_grammar::{Mark, Terminal, is_mark, keyword_in, name_of, terminals_of};
use ch_sql_tokens::{Token, lex};
use std::alloc::Global;
use std::str;

/// A token as a letter for its kind and its content.
fn shown(alloc: Global, token: &Token) -> anyhow::Result<String> {
    let text = match token {
        Token::Word(word) => format!(in alloc; "w{}", str::from_utf8(word.as_slice())?)?,
        Token::Quoted(name) => format!(in alloc; "q{}", str::from_utf8(name.as_slice())?)?,
        Token::Number(n) => format!(in alloc; "n{n}")?,
        Token::Text(text) => format!(in alloc; "t{}", str::from_utf8(text.as_slice())?)?,
        Token::Symbol(symbol) => format!(in alloc; "s{symbol:?}")?,
    };
    Ok(text)
}

/// The tokens with blanks between them.
fn all_shown(alloc: Global, tokens: &Listed<Token>) -> anyhow::Result<String> {
    let mut text = String::from_str(alloc, "tokens")?;
    for token in tokens.as_slice() {
        text.push(' ')?;
        text.push_str(shown(alloc, token)?.as_str())?;
    }
    Ok(text)
}

/// The tokens of a text, or its refusal.
pub(crate) fn tokens(alloc: Global, text: &[u8]) -> anyhow::Result<String> {
    match lex(alloc, text) {
        Ok(tokens) => all_shown(alloc, &tokens),
        Err(error) => Ok(format!(in alloc; "{error:?}")?),
    }
}

/// Which keyword a word is.
pub(crate) fn keyword(alloc: Global, word: &[u8]) -> anyhow::Result<String> {
    Ok(format!(in alloc; "{:?}", keyword_in(word))?)
}

/// A mark, or a name, and whether it is the keyword SELECT.
fn terminal(alloc: Global, terminal: &Terminal) -> anyhow::Result<String> {
    let is_select = is_mark(Mark::Select, terminal);
    match name_of(terminal) {
        Some(name) => {
            let name = str::from_utf8(name.as_slice())?;
            Ok(format!(in alloc; "name {name} {is_select}; ")?)
        }
        None => Ok(format!(in alloc; "{terminal:?} {is_select}; ")?),
    }
}

/// The tokens of a text as the grammar sees them.
pub(crate) fn terminals(alloc: Global, text: &[u8]) -> anyhow::Result<String> {
    let tokens = lex(alloc, text)?;
    let mut text = String::new(alloc);
    for found in &terminals_of(alloc, tokens.as_slice())? {
        text.push_str(terminal(alloc, found)?.as_str())?;
    }
    Ok(text)
}
