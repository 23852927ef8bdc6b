ghost use Rattle.std.specs.Prelude.{◌≡◌};
ghost use Rattle.ch_sql_tokens.specs.Spelling.{spelling};
ghost use Rattle.ch_sql_text.specs.Spelled.{mark_token};

use ch_sql_grammar::Mark;

/// A keyword in capitals, or a sign.
#[tactic(auto, unfolding(crate::specs::Spelled::mark_token))]
pub fn mark_text(mark: Mark) -> &'static str
    ensures { result.now ≡ spelling (mark_token mark) }
{
    match mark {
        Mark::Select => "SELECT",
        Mark::Distinct => "DISTINCT",
        Mark::From => "FROM",
        Mark::Join => "JOIN",
        Mark::On => "ON",
        Mark::Where => "WHERE",
        Mark::Order => "ORDER",
        Mark::By => "BY",
        Mark::Asc => "ASC",
        Mark::Desc => "DESC",
        Mark::Limit => "LIMIT",
        Mark::Group => "GROUP",
        Mark::Having => "HAVING",
        Mark::Sum => "SUM",
        Mark::Count => "COUNT",
        Mark::Skyline => "SKYLINE",
        Mark::Of => "OF",
        Mark::Max => "MAX",
        Mark::Min => "MIN",
        Mark::And => "AND",
        Mark::Or => "OR",
        Mark::Not => "NOT",
        Mark::Between => "BETWEEN",
        Mark::In => "IN",
        Mark::Like => "LIKE",
        Mark::Eq => "=",
        Mark::Ne => "<>",
        Mark::Lt => "<",
        Mark::Le => "<=",
        Mark::Gt => ">",
        Mark::Ge => ">=",
        Mark::LeftParen => "(",
        Mark::RightParen => ")",
        Mark::Comma => ",",
        Mark::Dot => ".",
        Mark::Star => "*",
        Mark::Semicolon => ";",
    }
}
