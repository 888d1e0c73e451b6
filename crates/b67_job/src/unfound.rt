//! The status of a search that answers nothing.

ghost use Rattle.std.specs.Prelude.{◌≡◌};
ghost use Rattle.b67_job.specs.Finishing.{refused_status};
ghost use Rattle.b67_job.specs.SearchStatus.{unadmitted_status, stopped_status, search_status};

use crate::admit_fault::AdmitFault;
use crate::searching::SearchFault;
use b67_session::{OpenFault, Stop};

fn unadmitted_status(fault: AdmitFault) -> u8
    ensures { result ≡ unadmitted_status fault }
{
    match fault {
        AdmitFault::Refused(_refusal) => 2,
        AdmitFault::SourceFault => 7,
        AdmitFault::Memory => 9,
    }
}

fn refused_status(fault: OpenFault) -> u8
    ensures { result ≡ refused_status fault }
{
    match fault {
        OpenFault::NoCore { .. } => 4,
        OpenFault::BackingFull { .. } => 5,
        OpenFault::BackingFault => 6,
        OpenFault::Memory => 9,
    }
}

fn stopped_status(stop: Stop) -> u8
    ensures { result ≡ stopped_status stop }
{
    match stop {
        Stop::NoCore { .. } => 4,
        Stop::BackingFull { .. } => 5,
        Stop::BackingFault => 6,
        Stop::PrintFault => 8,
    }
}

/// The status that tells why a search answers nothing, as `run` has them: 2 a refused deck, 4 a core that is too small, 5 too few
/// sectors, 6 a backing, 7 a source and 8 a printer that failed, 9 out of memory.
pub fn search_status(fault: SearchFault) -> u8
    ensures { result ≡ search_status fault }
{
    match fault {
        SearchFault::Admit(fault) => unadmitted_status(fault),
        SearchFault::Open(fault) => refused_status(fault),
        SearchFault::Stop(stop) => stopped_status(stop),
    }
}
