//! Why a session isn't opened.

ghost use Rattle.std.specs.Prelude.{◌≡◌};
ghost use Rattle.b67_session.specs.declared.open_fault.OpenFault.TheVariants.{Memory};

use std::alloc::AllocError;
use thiserror::Error;

/// Memory was refused; core has not the words that the session needs; the device has not the sectors that its programs
/// take; or the device failed.
#[derive(Clone, Copy, Debug, PartialEq, Eq, Error)]
pub enum OpenFault {
    #[error("out of memory")]
    Memory,
    #[error("core of {core} words where {need} are needed")]
    NoCore { need: u32, core: u32 },
    #[error("{sectors} sectors where {sum} are needed")]
    BackingFull { sum: u32, sectors: u32 },
    #[error("the backing failed")]
    BackingFault,
}

impl From<AllocError> for OpenFault {
    ghost from_gives = { λ _ fault. fault ≡ Memory };

    fn from(_error: AllocError) -> OpenFault {
        OpenFault::Memory
    }
}
