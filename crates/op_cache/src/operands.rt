ghost use Rattle.std.specs.Prelude.{◌≡◌, ◌+◌, ◌<◌, ◌^◌, map, IfOk};
ghost use Rattle.ch_ir.specs.declared.program.Operand.TheVariants.{Word};
ghost use Rattle.op_cache.specs.Emitted.{put_each, words_from};

use ch_cells::{Listed, Memory};
use ch_ir::{Operand, Update};
use std::alloc::Global;

/// Words as operands.
pub fn words_of(alloc: Global, words: &[u32]) -> Result<Listed<Operand>, Memory>
    ensures { IfOk result (λ operands. operands ≡ map Word words.now) }
{
    let mut operands = Listed::new(alloc);
    for word in words {
        operands.push(Operand::Word(*word))?;
    }
    Ok(operands)
}

/// So many words in a row as operands.
pub fn words_from(alloc: Global, to: u32, count: u32) -> Result<Listed<Operand>, Memory>
    requires { to + count < 2 ^ 32 }
    ensures { IfOk result (λ operands. operands ≡ words_from to count) }
{
    let mut operands = Listed::new(alloc);
    for at in 0..count {
        operands.push(Operand::Word(to + at))?;
    }
    Ok(operands)
}

/// Each operand as an update that puts it.
pub fn put_each(alloc: Global, carried: &[Operand]) -> Result<Listed<Update>, Memory>
    ensures { IfOk result (λ updates. updates ≡ put_each carried.now) }
{
    let mut updates = Listed::new(alloc);
    for operand in carried {
        updates.push(Update::Put(*operand))?;
    }
    Ok(updates)
}
