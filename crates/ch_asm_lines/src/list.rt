ghost use Rattle.std.specs.Prelude.{◌≡◌, ◌++◌, OnOk, map};
ghost use Rattle.std.specs.List.{AllByRecursion};
ghost use Rattle.ch_asm_lines.specs.Spelling.{list_text};
ghost use Rattle.ch_asm_lines.specs.Reading.{Gives, GivesBy, list_of, field_of};

use crate::first_cut::cut;
use crate::line::LineError;
use crate::part::{read_listed_word, read_operand, read_update};
use crate::write_part::{push_operand, push_update, push_word};
use ch_cells::{Listed, Memory};
use ch_ir::{Operand, Update};
use std::alloc::Global;

/// What a list holds.
pub(crate) trait Item: Drop + Sized {
    ghost use Rattle.std.specs.Prelude.{◌≡◌, ◌++◌, OnOk, ℕ, List, Option};

    ghost read_of: { List ℕ → Option Self };

    ghost text_of: { Self → List ℕ };

    /// The numbers are in the ranges of their types.
    ghost fits: { Self → Type 0 };

    fn read(text: &[u8]) -> Option<Self>
        ensures { result ≡ read_of text.now };

    /// Writes the item at the end.
    fn push(&self, text: &mut Vec<u8>) -> Result<(), Memory>
        ensures text { OnOk result (text.new.items ≡ text.old.items ++ text_of self.now) }
        ensures fits { OnOk result (fits self.now) };
}

/// The number of a word, as it stands in a list.
impl Item for u32 {
    ghost use Rattle.ch_asm_lines.specs.Reading.{listed_word_of};
    ghost use Rattle.ch_asm_lines.specs.Spelling.{word_text};
    ghost use Rattle.ch_asm_lines.specs.Range.{IsWord};

    ghost read_of = { listed_word_of };

    ghost text_of = { word_text };

    ghost fits = { IsWord };

    fn read(text: &[u8]) -> Option<u32> {
        read_listed_word(text)
    }

    fn push(&self, text: &mut Vec<u8>) -> Result<(), Memory> {
        push_word(text, *self)
    }
}

impl Item for Operand {
    ghost use Rattle.ch_asm_lines.specs.Reading.{operand_of};
    ghost use Rattle.ch_asm_lines.specs.Spelling.{operand_text};
    ghost use Rattle.ch_asm_lines.specs.Range.{IsOperand};

    ghost read_of = { operand_of };

    ghost text_of = { operand_text };

    ghost fits = { IsOperand };

    fn read(text: &[u8]) -> Option<Operand> {
        read_operand(text)
    }

    fn push(&self, text: &mut Vec<u8>) -> Result<(), Memory> {
        push_operand(text, *self)
    }
}

impl Item for Update {
    ghost use Rattle.ch_asm_lines.specs.Reading.{update_of};
    ghost use Rattle.ch_asm_lines.specs.Spelling.{update_text};
    ghost use Rattle.ch_asm_lines.specs.Range.{IsUpdate};

    ghost read_of = { update_of };

    ghost text_of = { update_text };

    ghost fits = { IsUpdate };

    fn read(text: &[u8]) -> Option<Update> {
        read_update(text)
    }

    fn push(&self, text: &mut Vec<u8>) -> Result<(), Memory> {
        push_update(text, *self)
    }
}

/// Items with `,` between them. Of none the text is `-`.
#[tactic(auto, unfolding(crate::specs::Reading::list_of))]
pub(crate) fn read_list<T: Item>(alloc: Global, text: &[u8]) -> Result<Listed<T>, LineError>
    ensures { Gives (list_of T.read_of text.now) result }
{
    let mut items = Listed::new(alloc);
    if text == b"-".as_slice() {
        return Ok(items);
    }
    let mut rest = text;
    while let Some((first, more)) = cut(b',', rest) {
        let Some(item) = T::read(first) else {
            return Err(LineError::Bad);
        };
        items.push(item)?;
        rest = more;
    }
    let Some(last) = T::read(rest) else {
        return Err(LineError::Bad);
    };
    items.push(last)?;
    Ok(items)
}

#[tactic(auto, unfolding(crate::specs::Reading::field_of))]
pub(crate) fn list_field<T: Item>(
    alloc: Global,
    text: &[u8],
) -> Result<(Listed<T>, &[u8]), LineError>
    ensures { GivesBy (λ field. (field.0, field.1.now)) (field_of (list_of T.read_of) text.now) result }
{
    let (list, rest) = cut(b' ', text).ok_or(LineError::Bad)?;
    Ok((read_list(alloc, list)?, rest))
}

/// Writes a list at the end: its items with `,` between them, and `-` where there are none.
pub(crate) fn push_list<T: Item>(text: &mut Vec<u8>, items: &[T]) -> Result<(), Memory>
    ensures text { OnOk result (text.new.items ≡ text.old.items ++ list_text (map T.text_of items.now)) }
    ensures fits { OnOk result (AllByRecursion T.fits items.now) }
{
    match items {
        [] => text.push(b'-')?,
        [first, others @ ..] => {
            first.push(text)?;
            for item in others {
                text.push(b',')?;
                item.push(text)?;
            }
        }
    }
    Ok(())
}
