//! Why cards denote no codefile.

ghost use Rattle.b67_asm.specs.declared.fault.AsmFault.TheVariants as faults;
ghost use Rattle.b67_asm.specs.declared.fault.Refused.TheVariants as refusals;
ghost use Rattle.std.specs.Prelude.{◌≡◌};

use std::alloc::AllocError;
use thiserror::Error;

/// Why cards aren't assembled.
#[derive(Clone, Copy, Debug, PartialEq, Eq, Error)]
pub enum AsmFault {
    /// The first card that is refused, by its number, and its lowest reason of 1 to 11.
    #[error("card {card} breaks reason {reason} of assembly")]
    Card { card: u32, reason: u8 },
    #[error("out of memory")]
    Memory,
}

impl From<AllocError> for AsmFault {
    ghost from_gives = { λ _ e. e ≡ faults.Memory };

    fn from(_: AllocError) -> AsmFault {
        AsmFault::Memory
    }
}

/// Why one card is refused.
#[derive(Debug, Drop)]
pub enum Refused {
    Reason(u8),
    Memory,
}

impl From<AllocError> for Refused {
    ghost from_gives = { λ _ e. e ≡ refusals.Memory };

    fn from(_: AllocError) -> Refused {
        Refused::Memory
    }
}
