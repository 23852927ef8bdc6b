ghost use Rattle.std.specs.Prelude.{◌≡◌, ◌≤◌, [], IfOk};
ghost use Rattle.op_moves.specs.Moves.{staged};
ghost use Rattle.op_join.specs.Program.{moves_of};

use ch_cells::{Listed, Memory};
use ch_ir::{Binary, Op, Operand, Stage};
use op_bloom::{Sizes, make_filters};
use op_moves::Builder;
use std::alloc::Global;

/// The stages of the program: the filters, and then the verdict.
pub(crate) fn stages(alloc: Global, sizes: Sizes) -> Result<Listed<Stage>, Memory>
    requires width { sizes.width ≤ 20 }
    requires few { sizes.hashes ≤ 8 }
    ensures { IfOk result (λ stages. stages ≡ staged [] (moves_of sizes)) }
{
    let mut builder = Builder::new(alloc);
    let bad = make_filters(alloc, sizes, &mut builder)?;
    let verdict = sizes.width + 5 + 10 * sizes.hashes;
    let bit = Operand::Word(sizes.width);
    builder.compute(Op::Two(verdict, Binary::Le, bit, Operand::Word(bad)))?;
    builder.finish(alloc)
}
