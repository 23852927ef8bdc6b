ghost use Rattle.std.specs.Prelude.{◌≡◌, if◌then◌else◌};
ghost use Rattle.ch_protocol.specs.declared.fate.NoteFate.TheVariants.{New, Old, Taken, Ignored};

use ch_protocol::NoteFate;

/// The fate of a packet that the master took.
pub(crate) fn arrival_fate(is_new: bool) -> NoteFate
    ensures { result ≡ (if is_new then New else Old) }
{
    if is_new { NoteFate::New } else { NoteFate::Old }
}

/// The fate of an acknowledgement that a worker got.
pub(crate) fn learning_fate(is_current: bool) -> NoteFate
    ensures { result ≡ (if is_current then Taken else Ignored) }
{
    if is_current {
        NoteFate::Taken
    } else {
        NoteFate::Ignored
    }
}

/// The last pass.
pub(crate) fn last_pass(two_passes: bool) -> u8
    ensures { result ≡ (if two_passes then 2 else 1) }
{
    if two_passes { 2 } else { 1 }
}
