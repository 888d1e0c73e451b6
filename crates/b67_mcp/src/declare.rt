//! ARRAYDEC.

ghost use Rattle.b67_model.specs.Words as words;
ghost use Rattle.b67_mcp.specs.Declaring as definition;
ghost use Rattle.std.specs.Prelude.{◌≡◌, ℕ, ◌<◌, ◌^◌, List, ◌⊎◌, slice_get, IfOk};
ghost use Rattle.b67_ctl.specs.Layout.{IsPlace};
ghost use Rattle.b67_layout.specs.Session.{RepresentsSession};
ghost use Rattle.b67_layout.specs.Meets.{ForEach, with_job, IsInStack};
ghost use Rattle.b67_mcp.specs.Printed.{CutSome, CallSome, IsCall, MayCut};
ghost use Rattle.b67_mcp.specs.Declaring.{job_declared, with_home, storage_without, LengthMeets};
ghost use Rattle.b67_model.specs.declared.intrinsics.TheConstants.{ARRAYDEC};
ghost use Rattle.b67_mcp.specs.Answers.{AnswerMeets};
ghost use Rattle.b67_mcp.specs.Called.{CallsSome, ChangesStack};
ghost use Rattle.b67_mcp.specs.Running.{ForCalls, Keeps};

use crate::call::{cut_call, only_argument};
use crate::running::next_place;
use b67_ctl::DataDesc;
use b67_entry::is_critical;
use b67_stack::Cpu;
use b67_task::Machine;
use b67_word::{Fault, Place, Word};

/// The length that a word says: INVALID OPERAND where it is no operand, EXPONENT where it isn't whole, INVALID INDEX where
/// no array has that length.
pub(crate) fn length_in(w: Word) -> Result<u32, Fault>
    ensures value { result ≡ definition.length_in w }
    ensures bounds { IfOk result (λ n. (0 < n) × (n < 2 ^ 16)) }
{
    if w.tag() != 0 {
        return Err(Fault::InvalidOperand);
    }
    match w.value() {
        Some(number) if (1..65536).contains(&number) => Ok(number as u32),
        Some(_) => Err(Fault::InvalidIndex),
        None => Err(Fault::Exponent),
    }
}

/// The length of the array that a call of ARRAYDEC on the running stack declares, or the call's fault. Nothing is changed.
pub fn array_length(cpu: &Cpu) -> Result<u32, Fault>
    requires { CallSome cpu.now }
    ensures row { ForEach cpu.now (λ x plan s m t. (reference : words.Word) (arguments : List words.Word) → IsCall t reference arguments → LengthMeets m t arguments result) }
{
    let w = only_argument(cpu)?;
    let length = length_in(w);
    if length.is_ok() && is_critical(cpu) {
        return Err(Fault::CriticalBlock);
    }
    length
}

/// Cuts the call of ARRAYDEC off the running stack, and puts the original of a new array of `length` zeros on the
/// activation record below. The array is in no area and in no chain. The task goes on at a place of its segment.
pub fn answer_array(cpu: &mut Cpu, length: u32, next: Place)
    requires call { CutSome cpu.old }
    requires place { IsPlace next }
    requires some { 0 < length }
    requires small { length < 2 ^ 16 }
    ensures stands { ForEach cpu.old (λ x plan s m t. MayCut m t
        → RepresentsSession (storage_without x cpu.new.regs.s) cpu.new (with_home plan m.constants.number m.progress.job.next_array cpu.new.regs.s) (with_job s m (job_declared m t length next))) }
    ensures changed { ForEach cpu.old (λ x plan s m t. MayCut m t → (i : ℕ)
        → (slice_get cpu.new.core i ≡ slice_get cpu.old.core i) ⊎ IsInStack cpu.old.regs i) }
{
    cut_call(cpu, next);
    let original = DataDesc {
        present: false,
        copy: false,
        indexed: false,
        read_only: false,
        length,
        address: 0,
    };
    cpu.put(original.word());
}

/// ARRAYDEC: the call is cut and answers with the original of a new array. Its fault changes nothing.
pub(crate) fn declare(machine: &mut Machine) -> Result<(), Fault>
    requires { CallsSome machine.old ARRAYDEC }
    ensures row { ForCalls machine.old ARRAYDEC (λ x told plan s m t. AnswerMeets x told plan s m t result machine.old machine.new) }
    ensures kept { Keeps machine.old machine.new }
    ensures changed { ChangesStack machine.old machine.new }
    ensures sectors { machine.new.sectors ≡ machine.old.sectors }
{
    let length = array_length(&machine.cpu)?;
    let next = next_place(machine);
    answer_array(&mut machine.cpu, length, next);
    Ok(())
}
