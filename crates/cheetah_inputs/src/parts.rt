ghost use Rattle.std.specs.Prelude.{◌≡◌, ◌∷◌, IfOk, filter, map, not};
ghost use Rattle.cheetah_words.specs.Tables.{part_word};
ghost use Rattle.cheetah_inputs.specs.Parts.{is_of, named_texts, part_text, texts_of};

use ch_cells::{Bytes, Listed, Memory};
use cheetah_words::TableWord;
use std::alloc::Global;
use std::collections::VecDeque;

/// The text of a part of the table of this name.
#[derive(Drop)]
pub(crate) struct PartText<'a> {
    pub(crate) name: &'a str,
    pub(crate) text: Bytes,
}

/// The text of each part with the name of its table.
pub(crate) fn name_texts<'a>(
    alloc: Global,
    words: &[TableWord<'a>],
    texts: VecDeque<Bytes>,
) -> Result<VecDeque<PartText<'a>>, Memory>
    ensures { IfOk result (λ parts. map part_text parts.items ≡ named_texts (map part_word words.now) texts.items) }
{
    let mut texts = texts;
    let mut parts = VecDeque::new(alloc);
    for word in words {
        let name = word.name;
        match texts.pop_front() {
            Some(text) => parts.push_back(PartText { name, text })?,
            None => return Ok(parts),
        }
    }
    Ok(parts)
}

/// The texts of a table, and the parts of all others.
#[derive(Drop)]
pub(crate) struct Chosen<'a> {
    pub(crate) texts: Listed<Bytes>,
    pub(crate) others: VecDeque<PartText<'a>>,
}

/// Takes the parts of the first one's table out of all that are left.
pub(crate) fn choose<'a>(
    alloc: Global,
    first: PartText<'a>,
    left: VecDeque<PartText<'a>>,
) -> Result<Chosen<'a>, Memory>
    ensures texts { IfOk result (λ chosen. chosen.texts ≡ (part_text first.entry).text ∷ texts_of (part_text first.entry).name (map part_text left.entry.items)) }
    ensures others { IfOk result (λ chosen. map part_text chosen.others.items ≡ filter (λ part. not (is_of (part_text first.entry).name part)) (map part_text left.entry.items)) }
{
    let PartText { name, text } = first;
    let mut texts = Listed::new(alloc);
    let mut others = VecDeque::new(alloc);
    let mut left = left;
    texts.push(text)?;
    while let Some(part) = left.pop_front() {
        if part.name == name {
            let PartText { name: _, text } = part;
            texts.push(text)?;
        } else {
            others.push_back(part)?;
        }
    }
    Ok(Chosen { texts, others })
}
