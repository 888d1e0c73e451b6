//! Why a source has no deck.

ghost use Rattle.std.specs.Prelude.{◌≡◌};
ghost use Rattle.b67_card.specs.Faults.{fault_of};
ghost use Rattle.b67_card.specs.declared.fault.DeckFault.TheVariants.{Memory};

use crate::reading::ReadFault;
use std::alloc::AllocError;
use thiserror::Error;

/// Why a deck isn't read.
#[derive(Clone, Copy, Debug, PartialEq, Eq, Error)]
pub enum DeckFault {
    /// The first card that is refused, counted from 1, and its lowest reason of 1 to 14.
    #[error("card {card} of the deck breaks reason {reason}")]
    Card { card: u32, reason: u8 },
    #[error("the source failed")]
    SourceFault,
    #[error("out of memory")]
    Memory,
}

impl From<AllocError> for DeckFault {
    ghost from_gives = { λ _ e. e ≡ Memory };

    fn from(_: AllocError) -> DeckFault {
        DeckFault::Memory
    }
}

impl From<ReadFault> for DeckFault {
    ghost from_gives = { λ fault e. e ≡ fault_of fault };

    fn from(fault: ReadFault) -> DeckFault {
        match fault {
            ReadFault::TooLong { card } => DeckFault::Card { card, reason: 14 },
            ReadFault::SourceFault => DeckFault::SourceFault,
            ReadFault::Memory => DeckFault::Memory,
        }
    }
}
