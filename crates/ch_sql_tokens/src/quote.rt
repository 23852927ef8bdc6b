ghost use Rattle.std.specs.Prelude.{◌≡◌, ◌≤◌, IfOk, IfSome, length, option_map};
ghost use Rattle.ch_sql_tokens.specs.Quote.{quoted_of};

use ch_cells::Memory;
use std::alloc::Global;

/// What stands behind an open quote, up to the last quote that can close it, and how many bytes
/// that takes. Where quotes are doubled to the end of the text, the first of the last pair closes.
#[tactic(auto, using(crate::proofs::QuoteRules::quote_rules))]
pub fn quoted(alloc: Global, text: &[u8], quote: u8) -> Result<Option<(Vec<u8>, usize)>, Memory>
    ensures value { IfOk result (λ o. option_map (λ r. (r.0.items, r.1)) o ≡ quoted_of quote text.now) }
    ensures within { IfOk result (λ o. IfSome o (λ r. r.1 ≤ length text.now)) }
{
    let mut content = Vec::new(alloc);
    let mut at = 0;
    // how much of the content stood at the last pair of quotes, and how many bytes up to its first
    let mut pair: Option<(usize, usize)> = None;
    while at < text.len() {
        if text[at] != quote {
            content.push(text[at])?;
            at += 1;
        } else if at + 1 < text.len() && text[at + 1] == quote {
            pair = Some((content.len(), at + 1));
            content.push(quote)?;
            at += 2;
        } else {
            return Ok(Some((content, at + 1)));
        }
    }
    match pair {
        Some((kept, end)) => {
            content.truncate(kept);
            Ok(Some((content, end)))
        }
        None => Ok(None),
    }
}
