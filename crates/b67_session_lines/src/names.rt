//! The names of faults and of endings.

ghost use Rattle.std.specs.Prelude.{◌≡◌, ◌≤◌, length};
ghost use Rattle.b67_model.specs.Lines.{fault_name, ending_name};

use b67_word::{Ending, Fault};

/// The name of a fault.
fn fault_name(fault: Fault) -> &'static str
    ensures name { result.now ≡ fault_name fault }
    ensures short { length result.now ≤ 16 }
{
    match fault {
        Fault::StackUnderflow => "STACK UNDERFLOW",
        Fault::StackOverflow => "STACK OVERFLOW",
        Fault::InvalidOperand => "INVALID OPERAND",
        Fault::InvalidIndex => "INVALID INDEX",
        Fault::MemoryProtect => "MEMORY PROTECT",
        Fault::InvalidAddress => "INVALID ADDRESS",
        Fault::IntegerOverflow => "INTEGER OVERFLOW",
        Fault::DivideByZero => "DIVIDE BY ZERO",
        Fault::Exponent => "EXPONENT",
        Fault::Loop => "LOOP",
        Fault::Uplevel => "UPLEVEL",
        Fault::CriticalBlock => "CRITICAL BLOCK",
        Fault::InvalidOperator => "INVALID OPERATOR",
        Fault::MarkPending => "MARK PENDING",
    }
}

/// The name of an ending.
pub(crate) fn ending_name(ending: Ending) -> &'static str
    ensures name { result.now ≡ ending_name ending }
    ensures short { length result.now ≤ 16 }
{
    match ending {
        Ending::Ended => "ENDED",
        Ending::Parent => "PARENT",
        Ending::Deadlock => "DEADLOCK",
        Ending::Limit => "LIMIT",
        Ending::Faulted(fault) => fault_name(fault),
    }
}
