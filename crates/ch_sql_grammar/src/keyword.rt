ghost use Rattle.std.specs.Prelude.{◌≡◌};
ghost use Rattle.ch_sql_grammar.specs.Keyword.{keyword_of, select_keyword, tail_keyword, pred_keyword};

use crate::terminal::Mark;

/// The keyword of a list of items or a source that a word is.
fn select_keyword_in(word: &[u8]) -> Option<Mark>
    ensures { result ≡ select_keyword word.now }
{
    if word.eq_ignore_ascii_case(b"SELECT") {
        return Some(Mark::Select);
    }
    if word.eq_ignore_ascii_case(b"DISTINCT") {
        return Some(Mark::Distinct);
    }
    if word.eq_ignore_ascii_case(b"FROM") {
        return Some(Mark::From);
    }
    if word.eq_ignore_ascii_case(b"JOIN") {
        return Some(Mark::Join);
    }
    if word.eq_ignore_ascii_case(b"ON") {
        return Some(Mark::On);
    }
    if word.eq_ignore_ascii_case(b"WHERE") {
        return Some(Mark::Where);
    }
    if word.eq_ignore_ascii_case(b"MAX") {
        return Some(Mark::Max);
    }
    if word.eq_ignore_ascii_case(b"MIN") {
        return Some(Mark::Min);
    }
    None
}

/// The keyword of a tail that a word is.
fn tail_keyword_in(word: &[u8]) -> Option<Mark>
    ensures { result ≡ tail_keyword word.now }
{
    if word.eq_ignore_ascii_case(b"ORDER") {
        return Some(Mark::Order);
    }
    if word.eq_ignore_ascii_case(b"BY") {
        return Some(Mark::By);
    }
    if word.eq_ignore_ascii_case(b"ASC") {
        return Some(Mark::Asc);
    }
    if word.eq_ignore_ascii_case(b"DESC") {
        return Some(Mark::Desc);
    }
    if word.eq_ignore_ascii_case(b"LIMIT") {
        return Some(Mark::Limit);
    }
    if word.eq_ignore_ascii_case(b"GROUP") {
        return Some(Mark::Group);
    }
    if word.eq_ignore_ascii_case(b"HAVING") {
        return Some(Mark::Having);
    }
    if word.eq_ignore_ascii_case(b"SUM") {
        return Some(Mark::Sum);
    }
    if word.eq_ignore_ascii_case(b"COUNT") {
        return Some(Mark::Count);
    }
    if word.eq_ignore_ascii_case(b"SKYLINE") {
        return Some(Mark::Skyline);
    }
    if word.eq_ignore_ascii_case(b"OF") {
        return Some(Mark::Of);
    }
    None
}

/// The keyword of a predicate that a word is.
fn pred_keyword_in(word: &[u8]) -> Option<Mark>
    ensures { result ≡ pred_keyword word.now }
{
    if word.eq_ignore_ascii_case(b"AND") {
        return Some(Mark::And);
    }
    if word.eq_ignore_ascii_case(b"OR") {
        return Some(Mark::Or);
    }
    if word.eq_ignore_ascii_case(b"NOT") {
        return Some(Mark::Not);
    }
    if word.eq_ignore_ascii_case(b"BETWEEN") {
        return Some(Mark::Between);
    }
    if word.eq_ignore_ascii_case(b"IN") {
        return Some(Mark::In);
    }
    if word.eq_ignore_ascii_case(b"LIKE") {
        return Some(Mark::Like);
    }
    None
}

/// The keyword that a word is, in any case.
#[tactic(auto, unfolding(crate::specs::Keyword::keyword_of))]
pub fn keyword_in(word: &[u8]) -> Option<Mark>
    ensures { result ≡ keyword_of word.now }
{
    match select_keyword_in(word) {
        Some(mark) => Some(mark),
        None => match tail_keyword_in(word) {
            Some(mark) => Some(mark),
            None => pred_keyword_in(word),
        },
    }
}
