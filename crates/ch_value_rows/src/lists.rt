//! Lists of one and of two.
ghost use Rattle.std.specs.Prelude.{◌≡◌, [], ◌∷◌, IfOk};

use ch_cells::{Listed, Memory};
use std::alloc::Global;

pub(crate) fn one<T: Drop>(alloc: Global, item: T) -> Result<Listed<T>, Memory>
    ensures { IfOk result (λ list. list ≡ item ∷ []) }
{
    let mut list = Listed::new(alloc);
    list.push(item)?;
    Ok(list)
}

pub(crate) fn two<T: Drop>(alloc: Global, first: T, second: T) -> Result<Listed<T>, Memory>
    ensures { IfOk result (λ list. list ≡ first ∷ second ∷ []) }
{
    let mut list = Listed::new(alloc);
    list.push(first)?;
    list.push(second)?;
    Ok(list)
}
