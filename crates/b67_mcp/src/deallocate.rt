//! DEALLOCATE: an array becomes one of zeros, and its area and its sectors become free.

ghost use Rattle.b67_model.specs.Words as words;
ghost use Rattle.std.specs.Prelude.{List, ℕ, Option};
ghost use Rattle.b67_layout.specs.Meets.{ForEach};
ghost use Rattle.b67_mcp.specs.Printed.{CallSome, IsCall};
ghost use Rattle.b67_mcp.specs.Lengthening.{EmptyMeets};
ghost use Rattle.b67_stack.specs.MachineView.{PagedObject, MachineView};
ghost use Rattle.b67_stack.specs.Represents.{Storage};
ghost use Rattle.b67_stack.specs.HeldOtherwise.{LowWordsStayed, TakesPlace};
ghost use Rattle.b67_layout.specs.Machine.{PagingKeeps};
ghost use Rattle.b67_overlay.specs.Spans.{MachineCanPage};
ghost use Rattle.b67_mcp.specs.Lengths.{IsArray, zeroed, emptied};
ghost use Rattle.b67_model.specs.declared.intrinsics.TheConstants.{DEALLOCATE};
ghost use Rattle.b67_mcp.specs.Answers.{AnswerMeets};
ghost use Rattle.b67_mcp.specs.Called.{CallsSome};
ghost use Rattle.b67_mcp.specs.Running.{ForCalls, Keeps};

use crate::call::{cut_call, only_argument};
use crate::originals::{give_kept, original_at};
use crate::print_row::copied;
use crate::running::next_place;
use b67_area::Areas;
use b67_backing::Sectors;
use b67_ctl::DataDesc;
use b67_entry::is_critical;
use b67_exec_cells::array_descriptor;
use b67_overlay::search_copies;
use b67_stack::Cpu;
use b67_task::Machine;
use b67_word::Fault;

/// The array that a call of DEALLOCATE on the running stack empties, by the address of its original, or the call's fault.
/// Nothing is changed.
pub fn array_to_empty(cpu: &Cpu) -> Result<u32, Fault>
    requires { CallSome cpu.now }
    ensures row { ForEach cpu.now (λ x plan s m t. (reference : words.Word) (arguments : List words.Word) → IsCall t reference arguments → EmptyMeets plan m t arguments result) }
{
    let w = only_argument(cpu)?;
    let original = copied(cpu, w)?;
    let desc = array_descriptor(cpu, original);
    if desc.read_only {
        return Err(Fault::MemoryProtect);
    }
    if is_critical(cpu) {
        return Err(Fault::CriticalBlock);
    }
    Ok(original)
}

/// Makes an array one of zeros that was never touched: its area and its sectors are free, and its copies are absent. The
/// original at this address stays where it is. No device is called, and only the stacks are searched.
pub fn empty_array(cpu: &mut Cpu, areas: &mut Areas, sectors: &mut Sectors, home: u32)
    requires { (x : Storage) × (told : Option (List (List ℕ))) × (p : MachineView) × (t : PagedObject) × MachineCanPage x cpu.old areas.old sectors.old told p × IsArray p home t }
    ensures keeps { PagingKeeps cpu.old cpu.new areas.old areas.new sectors.old sectors.new }
    ensures row { (x : Storage) (told : Option (List (List ℕ))) (p : MachineView) (t : PagedObject) (objects : List PagedObject) → MachineCanPage x cpu.old areas.old sectors.old told p → IsArray p home t
        → TakesPlace p.objects objects t (zeroed t) → MachineCanPage (emptied x t) cpu.new areas.new sectors.new told (record p { objects = objects }) }
    ensures outside { (x : Storage) (told : Option (List (List ℕ))) (p : MachineView) (t : PagedObject) → MachineCanPage x cpu.old areas.old sectors.old told p → IsArray p home t
        → LowWordsStayed p cpu.old.core cpu.new.core }
{
    let original = original_at(&cpu.core, home);
    let untouched = DataDesc::original(false, false, original.length, 0);
    if original.present {
        let kept = areas.info(&cpu.core, original.address).kept;
        search_copies(cpu, original.address, home);
        cpu.core.set(home, untouched);
        areas.free(&mut cpu.core, original.address);
        give_kept(sectors, kept);
    } else {
        cpu.core.set(home, untouched);
        give_kept(sectors, original.address);
    }
}

/// DEALLOCATE: the array is one of zeros that was never touched, its area and its sectors are free, and the call is cut. Its
/// fault changes nothing.
pub(crate) fn deallocate(machine: &mut Machine) -> Result<(), Fault>
    requires { CallsSome machine.old DEALLOCATE }
    ensures row { ForCalls machine.old DEALLOCATE (λ x told plan s m t. AnswerMeets x told plan s m t result machine.old machine.new) }
    ensures kept { Keeps machine.old machine.new }
{
    let original = array_to_empty(&machine.cpu)?;
    let next = next_place(machine);
    empty_array(
        &mut machine.cpu,
        &mut machine.areas,
        &mut machine.sectors,
        original,
    );
    cut_call(&mut machine.cpu, next);
    Ok(())
}
