//! Why no programs are loaded.

ghost use Rattle.std.specs.Prelude.{◌≡◌};
ghost use Rattle.b67_job.specs.declared.admit_fault.AdmitFault.TheVariants.{Memory};

use crate::refusal::Refusal;
use std::alloc::AllocError;

/// Why a deck isn't loaded: it is refused, its source failed, or memory was refused.
#[derive(Clone, Copy, Debug, PartialEq, Eq)]
pub enum AdmitFault {
    Refused(Refusal),
    SourceFault,
    Memory,
}

impl From<AllocError> for AdmitFault {
    ghost from_gives = { λ _ e. e ≡ Memory };

    fn from(_: AllocError) -> Self {
        AdmitFault::Memory
    }
}
