use ch_cells::{Bytes, Memory};

/// Why inputs are refused.
#[derive(Debug, Drop)]
pub enum Refusal {
    /// With the line that says why.
    Line(Bytes),
    Memory,
}

impl From<Memory> for Refusal {
    ghost use Rattle.std.specs.Prelude.{◌≡◌};
    ghost use Rattle.cheetah_inputs.specs.declared.refusal.Refusal.TheVariants.{Memory};

    ghost from_gives = { λ _ e. e ≡ Memory };

    fn from(_: Memory) -> Refusal {
        Refusal::Memory
    }
}
