ghost use Rattle.std.specs.Prelude.{◌≡◌, IfOk, OnOk, option_map};
ghost use Rattle.ch_sql_grammar.specs.Grammar.{agg_tokens, having_tokens};
ghost use Rattle.ch_sql_grammar.specs.Tree.{plain_of, select_of};
ghost use Rattle.ch_sql_text.specs.Printed.{is_semi, printed_tokens, query_text, source_tokens, tail_tokens, where_tokens};
ghost use Rattle.ch_sql_text.specs.Writing.{puts};

use crate::filter::{is_or_pred, write_pred};
use crate::phrase::{Phrase, write_call, write_list};
use crate::writer::Writer;
use ch_cells::{Bytes, Memory};
use ch_sql_grammar::{Agg, Having, Mark, Pred, Query, Source, Tail};
use std::alloc::Global;

/// The one text of the query. Where its names and numbers are those of tokens, reading the text
/// gives the query again.
pub fn print(alloc: Global, query: &Query) -> Result<Bytes, Memory>
    ensures { IfOk result (λ text. text ≡ query_text (select_of query.now)) }
{
    let mut writer = Writer::new(alloc);
    write_query(&mut writer, query)?;
    Ok(writer.into_text())
}

#[tactic(auto, unfolding(crate::specs::Printed::printed_tokens), using(crate::proofs::Puts::put_rules))]
fn write_query(writer: &mut Writer, query: &Query) -> Result<(), Memory>
    ensures { OnOk result (writer.new ≡ puts writer.old (printed_tokens (select_of query.now))) }
{
    writer.mark(Mark::Select)?;
    writer.mark_if(query.distinct, Mark::Distinct)?;
    write_list(writer, query.items.as_slice())?;
    write_source(writer, &query.source)?;
    write_where(writer, is_semi_join(&query.source), &query.filter)?;
    write_tail(writer, &query.tail)
}

#[tactic(auto, using(crate::proofs::Puts::put_rules))]
fn write_source(writer: &mut Writer, source: &Source) -> Result<(), Memory>
    ensures { OnOk result (writer.new ≡ puts writer.old (source_tokens source.now)) }
{
    writer.mark(Mark::From)?;
    match source {
        Source::One(table) => writer.name(table),
        Source::Join {
            left,
            right,
            first_on,
            second_on,
        } => {
            writer.name(left)?;
            writer.mark(Mark::Join)?;
            writer.name(right)?;
            writer.mark(Mark::On)?;
            first_on.write(writer)?;
            writer.mark(Mark::Eq)?;
            second_on.write(writer)
        }
        Source::Semi {
            outer,
            inner,
            key,
            inner_key,
        } => {
            writer.name(outer)?;
            writer.mark(Mark::Where)?;
            key.write(writer)?;
            writer.mark(Mark::In)?;
            writer.mark(Mark::LeftParen)?;
            writer.mark(Mark::Select)?;
            inner_key.write(writer)?;
            writer.mark(Mark::From)?;
            writer.name(inner)?;
            writer.mark(Mark::RightParen)
        }
    }
}

fn is_semi_join(source: &Source) -> bool
    ensures { result ≡ is_semi source.now }
{
    matches!(source, Source::Semi { .. })
}

/// The filter, which stands behind an AND where the source is a semi-join.
#[tactic(auto, using(crate::proofs::Puts::put_rules))]
fn write_where(writer: &mut Writer, semi: bool, filter: &Option<Pred>) -> Result<(), Memory>
    ensures { OnOk result
        (writer.new ≡ puts writer.old (where_tokens semi (option_map plain_of filter.now))) }
{
    match filter {
        None => Ok(()),
        Some(pred) => {
            if semi {
                let in_parens = is_or_pred(pred);
                writer.mark(Mark::And)?;
                writer.mark_if(in_parens, Mark::LeftParen)?;
                write_pred(writer, pred)?;
                writer.mark_if(in_parens, Mark::RightParen)
            } else {
                writer.mark(Mark::Where)?;
                write_pred(writer, pred)
            }
        }
    }
}

#[tactic(auto, using(crate::proofs::Puts::put_rules))]
fn write_agg(writer: &mut Writer, agg: &Agg) -> Result<(), Memory>
    ensures { OnOk result (writer.new ≡ puts writer.old (agg_tokens agg.now)) }
{
    match agg {
        Agg::Sum(col) => write_call(writer, Mark::Sum, col),
        Agg::Count => {
            writer.mark(Mark::Count)?;
            writer.mark(Mark::LeftParen)?;
            writer.mark(Mark::Star)?;
            writer.mark(Mark::RightParen)
        }
    }
}

#[tactic(auto, using(crate::proofs::Puts::put_rules))]
fn write_having(writer: &mut Writer, having: &Option<Having>) -> Result<(), Memory>
    ensures { OnOk result (writer.new ≡ puts writer.old (having_tokens having.now)) }
{
    match having {
        None => Ok(()),
        Some(having) => {
            writer.mark(Mark::Having)?;
            write_agg(writer, &having.agg)?;
            writer.mark(Mark::Gt)?;
            writer.number(having.above)
        }
    }
}

#[tactic(auto, using(crate::proofs::Puts::put_rules))]
fn write_tail(writer: &mut Writer, tail: &Tail) -> Result<(), Memory>
    ensures { OnOk result (writer.new ≡ puts writer.old (tail_tokens tail.now)) }
{
    match tail {
        Tail::Nothing => Ok(()),
        Tail::Top {
            by,
            descending,
            limit,
        } => {
            writer.mark(Mark::Order)?;
            writer.mark(Mark::By)?;
            by.write(writer)?;
            writer.mark_if(*descending, Mark::Desc)?;
            writer.mark(Mark::Limit)?;
            writer.number(*limit)
        }
        Tail::Group { keys, having } => {
            writer.mark(Mark::Group)?;
            writer.mark(Mark::By)?;
            write_list(writer, keys.as_slice())?;
            write_having(writer, having)
        }
        Tail::Skyline { dims } => {
            writer.mark(Mark::Skyline)?;
            writer.mark(Mark::Of)?;
            write_list(writer, dims.as_slice())
        }
    }
}
