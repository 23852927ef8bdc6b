//! The ranks of texts.
ghost use Rattle.std.specs.Prelude.{◌≡◌};

use crate::reading::cut;
use ch_cells::Memory;
use ch_ranks::{Ranks, RanksBuilder};
use std::alloc::Global;
use std::str;

/// The dictionary of texts with spaces between two of them.
#[tactic(auto, using(crate::proofs::Added::one_more))]
pub(crate) fn dictionary(alloc: Global, said: &str) -> Result<Ranks, Memory> {
    let mut builder = RanksBuilder::new(alloc);
    let mut added: u32 = 0;
    for text in said.split_whitespace() {
        if added >= 1_000_000 {
            return Err(Memory);
        }
        builder.add(text.as_bytes())?;
        added += 1;
    }
    builder.finish()
}

/// The texts of all ranks, and whether one has the rank behind the last.
fn push_texts(alloc: Global, line: &mut String, ranks: &Ranks) -> anyhow::Result<()> {
    let size = ranks.size();
    for rank in 0..size {
        let text = ranks.text(rank).unwrap_or(b"");
        let text = str::from_utf8(text)?;
        line.push_str(format!(in alloc; ", {rank} {text}")?.as_str())?;
    }
    let behind = ranks.text(size).is_some();
    line.push_str(format!(in alloc; ", behind them {behind}\n")?.as_str())?;
    Ok(())
}

pub(crate) fn ranks(alloc: Global, said: &str) -> anyhow::Result<String> {
    let (texts, asked) = cut(said, "/");
    let ranks = dictionary(alloc, texts)?;
    let size = ranks.size();
    let mut line = format!(in alloc; "{size} ranks")?;
    for text in asked.split_whitespace() {
        let rank = ranks.rank(text.as_bytes());
        line.push_str(format!(in alloc; ", {text} {rank:?}")?.as_str())?;
    }
    push_texts(alloc, &mut line, &ranks)?;
    Ok(line)
}
