ghost use Rattle.std.specs.Prelude.{◌≡◌};
ghost use Rattle.ch_prune.specs.Fronts.{front_operand};

use ch_ir::Operand;

/// The front of an operator: which rows pass to it. Of each side it passes exactly the rows whose bit is set.
#[derive(Clone, Copy)]
pub struct Front;

impl Front {
    pub fn bit() -> Front {
        Front
    }

    /// How many ops it takes before its operand has a value.
    pub fn ops(&self) -> u32
        ensures { result ≡ 0 }
    {
        0
    }

    /// The word that isn't 0 exactly where the row passes.
    pub fn operand(&self) -> Operand
        ensures { result ≡ front_operand }
    {
        Operand::Word(2)
    }
}
