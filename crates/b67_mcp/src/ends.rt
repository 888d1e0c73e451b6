//! What a call of an intrinsic answers, and why a run stops short.

use b67_stack::What;
use b67_task::TaskState;
use b67_word::Fault;

/// A call that was made; that touches an absent array; whose row faults; or that makes its task wait, in this state.
#[derive(Clone, Copy, Debug, PartialEq, Eq)]
pub enum CallEnd {
    Done,
    Absent(What),
    Fault(Fault),
    Waits(TaskState),
}

/// Why a step isn't made: stacks and one operator's areas need more words than core has; the live arrays, segments and data
/// rows take more sectors than the device has; the device failed; the printer failed.
#[derive(Clone, Copy, Debug, PartialEq, Eq)]
pub enum Stop {
    NoCore { need: u32, core: u32 },
    BackingFull { sum: u32, sectors: u32 },
    BackingFault,
    PrintFault,
}
