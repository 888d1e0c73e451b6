//! PRINT.

ghost use Rattle.b67_model.specs.Words as words;
ghost use Rattle.std.specs.Prelude.{◌≡◌, List, ◌≢◌, ℕ, OnOk, OnErr, Err, ◌∷◌, []};
ghost use Rattle.b67_layout.specs.Meets.{ForEach};
ghost use Rattle.b67_mcp.specs.Printed.{CallSome, IsCall, PrintMeets};
ghost use Rattle.b67_model.specs.declared.intrinsics.TheConstants.{PRINT};
ghost use Rattle.b67_io.specs.Causes.{HasCause};
ghost use Rattle.b67_session_lines.specs.Parts.{TookRest, TookMore};
ghost use Rattle.b67_model.specs.Steps.{Value};
ghost use Rattle.b67_mcp.specs.declared.ends.Stop.TheVariants.{BackingFault};
ghost use Rattle.b67_mcp.specs.Called.{printed_text, CallsSome, CallMeets, CallTouches, ChangesStack};
ghost use Rattle.b67_mcp.specs.Running.{ForRuns, ForCalls, StandsAtEntr, Keeps, IsHeard};

use crate::call::only_argument;
use crate::number::whole;
use crate::running::{cut, running_row};
use crate::{CallEnd, Stop};
use b67_entry::is_critical;
use b67_io::Sink;
use b67_session_lines::{put_rest, value_line};
use b67_stack::Cpu;
use b67_task::Machine;
use b67_word::{Failed, Fault, Word};

/// The value that a call of PRINT on the running stack prints, or the call's fault. Nothing is changed: the line is printed
/// first, and then the call is cut.
pub fn print_value(cpu: &Cpu) -> Result<i64, Fault>
    requires { CallSome cpu.now }
    ensures row { ForEach cpu.now (λ x plan s m t. (reference : words.Word) (arguments : List words.Word) → IsCall t reference arguments → PrintMeets m t arguments result) }
{
    let w = only_argument(cpu)?;
    let value = whole(w);
    if value.is_ok() && is_critical(cpu) {
        return Err(Fault::CriticalBlock);
    }
    value
}

/// Prints what isn't printed yet of the line of a value that the running task prints. `printed` counts how many first bytes of
/// it are printed; it is raised by those that are taken.
fn say_value<K: Sink>(
    machine: &Machine,
    value: i64,
    printed: &mut u64,
    paper: &mut K,
) -> Result<(), Failed>
    requires { StandsAtEntr machine.now }
    ensures whole { OnOk result (ForRuns machine.now (λ x told plan s m t. TookRest K.taken paper.old paper.new (printed_text m t (Value value ∷ [])) printed.old)) }
    ensures part { OnErr result (ForRuns machine.now (λ x told plan s m t. TookMore K.taken paper.old paper.new (printed_text m t (Value value ∷ [])) printed.old printed.new)) }
    ensures cause { HasCause K.faults paper.old paper.new result }
{
    let row = running_row(machine);
    put_rest(paper, &value_line(row.job, row.number, value), 0, printed)
}

/// PRINT: what isn't printed yet of its line is printed, and then the call is cut. Where the printer fails nothing is changed
/// but how much is printed.
#[inline(always)]
pub(crate) fn print<K: Sink>(machine: &mut Machine, paper: &mut K) -> Result<CallEnd, Stop>
    requires { CallsSome machine.old PRINT }
    ensures row { ForCalls machine.old PRINT (λ x told plan s m t. (count : ℕ) → CallMeets K.taken told count x plan s m t result machine.old machine.new paper.old paper.new) }
    ensures present { ForCalls machine.old PRINT (λ x told plan s m t. CallTouches x plan m t result) }
    ensures cause { IsHeard K.faults paper.old paper.new result }
    ensures stops { result ≢ Err BackingFault }
    ensures kept { Keeps machine.old machine.new }
    ensures changed { ChangesStack machine.old machine.new }
    ensures sectors { machine.new.sectors ≡ machine.old.sectors }
{
    let value = match print_value(&machine.cpu) {
        Ok(value) => value,
        Err(fault) => return Ok(CallEnd::Fault(fault)),
    };
    let mut printed = machine.tasks.printed;
    match say_value(machine, value, &mut printed, paper) {
        Ok(()) => {
            cut(machine);
            Ok(CallEnd::Done)
        }
        Err(_) => {
            machine.tasks.printed = printed;
            Err(Stop::PrintFault)
        }
    }
}
