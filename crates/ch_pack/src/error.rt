use ch_cells::Memory;
use ch_ir::LimitName;
use thiserror::Error;

/// Why plans are not packed.
#[derive(Clone, Copy, Debug, PartialEq, Eq, Error)]
pub enum PackError {
    #[error("a limit is exceeded: the packed plans need {need} and the profile has {have}")]
    Limit {
        which: LimitName,
        need: u64,
        have: u64,
    },
    #[error("out of memory")]
    Memory,
}

impl From<Memory> for PackError {
    ghost use Rattle.std.specs.Prelude.{◌≡◌};
    ghost use Rattle.ch_pack.specs.declared.error.PackError.TheVariants as refused;

    ghost from_gives = { λ _ e. e ≡ refused.Memory };

    fn from(_: Memory) -> PackError {
        PackError::Memory
    }
}
