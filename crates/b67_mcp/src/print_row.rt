//! PRINTROW.

ghost use Rattle.b67_model.specs.Words as words;
ghost use Rattle.std.specs.Prelude.{◌≡◌, ℕ, List, ◌≢◌, Err, ◌≤◌, ◌+◌, ℤ, [], ◌∷◌, length, Some, OnOk, OnErr, slice_range};
ghost use Rattle.b67_model.specs.Intrinsics.{row_copy};
ghost use Rattle.b67_layout.specs.Meets.{ForEach};
ghost use Rattle.b67_fetch.specs.Fetches.{IsFollowed, MayFollow};
ghost use Rattle.b67_fetch.specs.Indexes.{FindsArray};
ghost use Rattle.b67_mcp.specs.Printed.{CallSome, IsCall};
ghost use Rattle.b67_mcp.specs.RowCalls.{CopyMeets, MissesCopy, RowMeets, RowTouches};
ghost use Rattle.b67_model.specs.declared.intrinsics.TheConstants.{PRINTROW};
ghost use Rattle.b67_io.specs.Causes.{HasCause};
ghost use Rattle.b67_session_lines.specs.Parts.{TookRest, TookMore};
ghost use Rattle.b67_model.specs.Steps.{Values};
ghost use Rattle.b67_mcp.specs.Texts.{values_of};
ghost use Rattle.b67_mcp.specs.declared.ends.Stop.TheVariants.{BackingFault};
ghost use Rattle.b67_mcp.specs.Called.{printed_text, CallsSome, CallMeets, CallTouches, ChangesStack};
ghost use Rattle.b67_mcp.specs.Running.{ForRuns, ForCalls, StandsAtEntr, Keeps, IsHeard};

use crate::call::only_argument;
use crate::print_row_lines::say_row;
use crate::print_row_values::are_whole;
use crate::running::{cut, running_row};
use crate::{CallEnd, Stop};
use b67_ctl::DataDesc;
use b67_entry::is_critical;
use b67_exec_cells::array_descriptor;
use b67_io::Sink;
use b67_refer::owner;
use b67_stack::{Cpu, What};
use b67_task::Machine;
use b67_word::{Failed, Fault, Word};

/// The row that a call prints: so many words from an address on; or the array whose original has this address is absent.
#[derive(Clone, Copy, Debug, PartialEq, Eq)]
pub enum RowFound {
    Words { at: u32, count: u32 },
    Absent(u32),
}

/// The address of the original that a word copies whole. INVALID OPERAND where it is no such copy.
pub(crate) fn copied(cpu: &Cpu, w: Word) -> Result<u32, Fault>
    requires { MayFollow cpu.now w }
    ensures { ForEach cpu.now (λ x plan s m t. (v : words.Word) → IsFollowed x plan m t w v → FindsArray plan m result (row_copy v)) }
{
    if w.tag() != 5 {
        return Err(Fault::InvalidOperand);
    }
    let copy = DataDesc::read(w);
    if copy.copy && !copy.indexed {
        Ok(owner(&cpu.core, copy))
    } else {
        Err(Fault::InvalidOperand)
    }
}

/// The address of the original that the one argument of a call of PRINTROW copies, or the call's fault.
fn argument(cpu: &Cpu) -> Result<u32, Fault>
    requires { CallSome cpu.now }
    ensures row { ForEach cpu.now (λ x plan s m t. (reference : words.Word) (arguments : List words.Word) → IsCall t reference arguments → CopyMeets plan m t arguments result) }
    ensures copies { ForEach cpu.now (λ x plan s m t. (reference : words.Word) (arguments : List words.Word) → IsCall t reference arguments → MissesCopy arguments result) }
{
    match only_argument(cpu) {
        Ok(w) => copied(cpu, w),
        Err(fault) => Err(fault),
    }
}

/// The row that a call of PRINTROW on the running stack prints, or the call's fault. An absent array comes before the
/// faults of what it holds: after any other answer the array that the argument copies, if any, is present. Nothing is
/// changed: the lines are printed first, and then the call is cut.
pub fn row_to_print(cpu: &Cpu) -> Result<RowFound, Fault>
    requires { CallSome cpu.now }
    ensures row { ForEach cpu.now (λ x plan s m t. (reference : words.Word) (arguments : List words.Word) → IsCall t reference arguments → RowMeets x plan m t cpu.now.core arguments result) }
    ensures present { ForEach cpu.now (λ x plan s m t. (reference : words.Word) (arguments : List words.Word) → IsCall t reference arguments → RowTouches x plan m arguments result) }
{
    let original = argument(cpu)?;
    let desc = array_descriptor(cpu, original);
    if !desc.present {
        return Ok(RowFound::Absent(original));
    }
    if !are_whole(cpu.core.words(desc.address, desc.length)) {
        return Err(Fault::Exponent);
    }
    if is_critical(cpu) {
        return Err(Fault::CriticalBlock);
    }
    Ok(RowFound::Words {
        at: desc.address,
        count: desc.length,
    })
}

/// Prints what isn't printed yet of the lines of a row of words in core, from an address on, which the running task prints.
/// `printed` counts how many first bytes of them are printed; it is raised by those that are taken.
fn say_words<K: Sink>(
    machine: &Machine,
    at: u32,
    count: u32,
    printed: &mut u64,
    paper: &mut K,
) -> Result<(), Failed>
    requires reads { StandsAtEntr machine.now }
    requires inside { at + count ≤ length machine.now.cpu.core }
    requires whole { (values : List ℤ) × (values_of (slice_range machine.now.cpu.core at (at + count)) ≡ Some values) }
    ensures whole { OnOk result (ForRuns machine.now (λ x told plan s m t. (values : List ℤ) → values_of (slice_range machine.now.cpu.core at (at + count)) ≡ Some values
        → TookRest K.taken paper.old paper.new (printed_text m t (Values values ∷ [])) printed.old)) }
    ensures part { OnErr result (ForRuns machine.now (λ x told plan s m t. (values : List ℤ) → values_of (slice_range machine.now.cpu.core at (at + count)) ≡ Some values
        → TookMore K.taken paper.old paper.new (printed_text m t (Values values ∷ [])) printed.old printed.new)) }
    ensures cause { HasCause K.faults paper.old paper.new result }
{
    let task = running_row(machine);
    say_row(
        machine.cpu.core.words(at, count),
        task.job,
        task.number,
        printed,
        paper,
    )
}

/// PRINTROW: what isn't printed yet of its lines is printed, and then the call is cut. Where its array is absent nothing is
/// changed, and where the printer fails nothing but how much is printed.
#[inline(always)]
pub(crate) fn print_row<K: Sink>(machine: &mut Machine, paper: &mut K) -> Result<CallEnd, Stop>
    requires { CallsSome machine.old PRINTROW }
    ensures row { ForCalls machine.old PRINTROW (λ x told plan s m t. (count : ℕ) → CallMeets K.taken told count x plan s m t result machine.old machine.new paper.old paper.new) }
    ensures present { ForCalls machine.old PRINTROW (λ x told plan s m t. CallTouches x plan m t result) }
    ensures cause { IsHeard K.faults paper.old paper.new result }
    ensures stops { result ≢ Err BackingFault }
    ensures kept { Keeps machine.old machine.new }
    ensures changed { ChangesStack machine.old machine.new }
    ensures sectors { machine.new.sectors ≡ machine.old.sectors }
{
    let found = match row_to_print(&machine.cpu) {
        Ok(found) => found,
        Err(fault) => return Ok(CallEnd::Fault(fault)),
    };
    match found {
        RowFound::Absent(original) => Ok(CallEnd::Absent(What::Array(original))),
        RowFound::Words { at, count } => {
            let mut printed = machine.tasks.printed;
            match say_words(machine, at, count, &mut printed, paper) {
                Ok(()) => {
                    cut(machine);
                    Ok(CallEnd::Done)
                }
                Err(_) => {
                    machine.tasks.printed = printed;
                    Err(Stop::PrintFault)
                }
            }
        }
    }
}
