// Why a line cannot be taken, before its number is known.
ghost use Rattle.std.specs.Prelude.{◌≡◌};

use crate::ConfKind;
use uw_base::Memory;

/// Why a step within a line gives no value.
#[derive(Clone, Copy, Debug, PartialEq, Eq)]
pub enum Refusal {
    Refused(ConfKind),
    /// No memory was left.
    Memory,
}

impl From<Memory> for Refusal {
    ghost use Rattle.uw_conf.specs.declared.refusal.Refusal.TheVariants as refusals;

    ghost from_gives = { λ _ refusal. refusal ≡ refusals.Memory };

    fn from(_: Memory) -> Refusal {
        Refusal::Memory
    }
}
