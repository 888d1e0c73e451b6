//! RESIZE.

ghost use Rattle.b67_model.specs.Words as words;
ghost use Rattle.std.specs.Prelude.{List, ◌≡◌, ◌^◌, ◌+◌, ◌<◌, ℕ, Option, Err, length, ◌≤◌, ◌≢◌, Ok};
ghost use Rattle.b67_layout.specs.Meets.{ForEach};
ghost use Rattle.b67_mcp.specs.Printed.{CallSome, IsCall};
ghost use Rattle.b67_mcp.specs.Lengthening.{ResizeMeets};
ghost use Rattle.b67_io.specs.Causes.{Rose};
ghost use Rattle.b67_backing.specs.declared.SpaceFault.TheVariants.{BackingFault};
ghost use Rattle.b67_stack.specs.MachineView.{PagedObject, MachineView};
ghost use Rattle.b67_stack.specs.Represents.{Storage};
ghost use Rattle.b67_stack.specs.HeldOtherwise.{LowWordsStayed, TakesPlace};
ghost use Rattle.b67_layout.specs.Machine.{IsPresent, DeviceAfterCalls, PagingKeeps, Says, content_after};
ghost use Rattle.b67_overlay.specs.Spans.{MachineCanPage};
ghost use Rattle.b67_mcp.specs.Lengths.{IsArray, LengthenMeets, cut_to, shorter};
ghost use Rattle.b67_model.specs.declared.intrinsics.TheConstants.{RESIZE};
ghost use Rattle.b67_backing.specs.declared.refusals.SpaceFault.TheVariants.{NoCore};
ghost use Rattle.b67_mcp.specs.Called.{CallsSome, CallTouches, CallWrites};
ghost use Rattle.b67_mcp.specs.Resizing.{HasArray, ForArrays, StopsAt, LengthSet, ResizeAnswers};
ghost use Rattle.b67_mcp.specs.Running.{ForCalls, Keeps, SilentCauses};
ghost use Rattle.b67_task.specs.Needing.{StandsOrdered};

use crate::call::cut_call;
use crate::declare::length_in;
use crate::originals::{give_kept, original_at};
use crate::print_row::copied;
use crate::running::next_place;
use crate::{CallEnd, Stop};
use b67_area::Areas;
use b67_backing::{Backing, Sectors, SpaceFault, sectors_needed};
use b67_ctl::DataDesc;
use b67_entry::is_critical;
use b67_exec_cells::{array_descriptor, count_cells, two_cells};
use b67_overlay::overlay;
use b67_stack::{Cpu, What};
use b67_task::{Machine, sector_sum};
use b67_word::Fault;

/// What a call of RESIZE does: the array whose original has this address gets `after` words in place of `before`; or that
/// array is absent.
#[derive(Clone, Copy, Debug, PartialEq, Eq)]
pub enum Resizing {
    Lengths {
        original: u32,
        before: u32,
        after: u32,
    },
    Absent(u32),
}

/// The array that a call of RESIZE on the running stack gives another length, with both lengths, or the call's fault. All
/// faults come before an absent array. Nothing is changed.
pub fn array_to_resize(cpu: &Cpu) -> Result<Resizing, Fault>
    requires { CallSome cpu.now }
    ensures row { ForEach cpu.now (λ x plan s m t. (reference : words.Word) (arguments : List words.Word) → IsCall t reference arguments → ResizeMeets x plan m t arguments result) }
{
    if count_cells(cpu) != 3 {
        return Err(Fault::InvalidOperand);
    }
    let (copy, number) = two_cells(cpu)?;
    let original = copied(cpu, copy)?;
    let after = length_in(number)?;
    let desc = array_descriptor(cpu, original);
    if desc.read_only {
        return Err(Fault::MemoryProtect);
    }
    if is_critical(cpu) {
        return Err(Fault::CriticalBlock);
    }
    if !desc.present {
        return Ok(Resizing::Absent(original));
    }
    Ok(Resizing::Lengths {
        original,
        before: desc.length,
        after,
    })
}

/// Gives a present array zeros after its numbers, up to a greater length. It is written out, its chain goes on through free
/// sectors, and it is left absent. `BackingFull` comes only where fewer sectors are free than it lacks, `BackingFault` only
/// where the device failed; after either the array has its old length, in its area or in its chain.
pub fn lengthen_array<B: Backing>(
    cpu: &mut Cpu,
    areas: &mut Areas,
    sectors: &mut Sectors,
    backing: &mut B,
    home: u32,
    words: u32,
) -> Result<(), SpaceFault>
    requires few { words < 2 ^ 16 }
    requires machine { (x : Storage) × (p : MachineView) × (t : PagedObject) × (at : ℕ) × MachineCanPage x cpu.old areas.old sectors.old (B.holds backing.old) p × IsArray p home t × IsPresent x p at t × (length t.numbers < words) }
    requires same { B.size backing.old + 1 ≡ length sectors.old.links }
    ensures keeps { PagingKeeps cpu.old cpu.new areas.old areas.new sectors.old sectors.new }
    ensures row { (x : Storage) (p : MachineView) (t : PagedObject) (at : ℕ) → MachineCanPage x cpu.old areas.old sectors.old (B.holds backing.old) p → IsArray p home t → IsPresent x p at t
        → LengthenMeets x p t words result cpu.new areas.new sectors.new (B.holds backing.new) }
    ensures outside { (x : Storage) (p : MachineView) (t : PagedObject) (at : ℕ) → MachineCanPage x cpu.old areas.old sectors.old (B.holds backing.old) p → IsArray p home t → IsPresent x p at t
        → LowWordsStayed p cpu.old.core cpu.new.core }
    ensures device { DeviceAfterCalls B.holds B.size B.calls B.faults backing.old backing.new }
    ensures cause { result ≡ Err BackingFault → Rose B.faults backing.old backing.new }
{
    let original = original_at(&cpu.core, home);
    match overlay(cpu, areas, sectors, backing, original.address) {
        Ok(()) => {
            let first = original_at(&cpu.core, home).address;
            match sectors.extend(first, original.length, words, backing) {
                Ok(()) => {
                    cpu.core
                        .set(home, DataDesc::original(false, false, words, first));
                    Ok(())
                }
                Err(fault) => Err(fault),
            }
        }
        Err(fault) => Err(fault),
    }
}

/// Leaves a present array only its first words, fewer than it has. They stay in place; the words after them become a part of
/// a hole, and the sectors that the array kept are free. No device is called.
pub fn shorten_array(cpu: &mut Cpu, areas: &mut Areas, sectors: &mut Sectors, home: u32, words: u32)
    requires some { 1 ≤ words }
    requires machine { (x : Storage) × (told : Option (List (List ℕ))) × (p : MachineView) × (t : PagedObject) × (at : ℕ) × MachineCanPage x cpu.old areas.old sectors.old told p × IsArray p home t × IsPresent x p at t × (words < length t.numbers) }
    ensures keeps { PagingKeeps cpu.old cpu.new areas.old areas.new sectors.old sectors.new }
    ensures row { (x : Storage) (told : Option (List (List ℕ))) (p : MachineView) (t : PagedObject) (at : ℕ) (objects : List PagedObject) → MachineCanPage x cpu.old areas.old sectors.old told p → IsArray p home t → IsPresent x p at t
        → TakesPlace p.objects objects t (cut_to words t) → MachineCanPage (shorter x t at words) cpu.new areas.new sectors.new told (record p { objects = objects }) }
    ensures outside { (x : Storage) (told : Option (List (List ℕ))) (p : MachineView) (t : PagedObject) (at : ℕ) → MachineCanPage x cpu.old areas.old sectors.old told p → IsArray p home t → IsPresent x p at t
        → LowWordsStayed p cpu.old.core cpu.new.core }
{
    let at = original_at(&cpu.core, home).address;
    let kept = areas.info(&cpu.core, at).kept;
    areas.shrink(&mut cpu.core, at, words);
    areas.keep(&mut cpu.core, at, 0);
    cpu.core
        .set(home, DataDesc::original(true, false, words, at));
    give_kept(sectors, kept);
}

/// The stop when there is no space to make an array longer: with the sectors that the session would take, and those of the
/// device, if too few are free.
fn stopped(machine: &Machine, fault: SpaceFault, before: u32, after: u32) -> Stop
    requires stands { StandsOrdered machine.now }
    requires space { (need core : ℕ) → fault ≢ NoCore need core }
    requires more { before ≤ after }
    requires few { after < 2 ^ 16 }
    ensures { StopsAt machine.now before after fault result }
{
    match fault {
        SpaceFault::BackingFull { .. } => Stop::BackingFull {
            sum: sector_sum(machine) + sectors_needed(after) - sectors_needed(before),
            sectors: machine.sectors.count(),
        },
        SpaceFault::BackingFault => Stop::BackingFault,
        SpaceFault::NoCore { .. } => unreachable!(),
    }
}

/// Gives a present array, whose original has this address, another length. A longer one is left absent, with zeros after its
/// numbers in its chain; a shorter one keeps its first words in place. After a stop it has its old length.
fn set_length<B: Backing>(
    machine: &mut Machine,
    backing: &mut B,
    original: u32,
    before: u32,
    after: u32,
) -> Result<(), Stop>
    requires array { HasArray machine.old original before }
    requires length { (0 < after) × (after < 2 ^ 16) }
    requires same { B.size backing.old + 1 ≡ length machine.old.sectors.links }
    ensures row { ForArrays machine.old original before (λ x told plan s m a. Says told (B.holds backing.old)
        → LengthSet (content_after told (B.holds backing.new)) (B.size backing.old) x plan s m a after result machine.old machine.new) }
    ensures quiet { after ≤ before → (result ≡ Ok tt) × (backing.new ≡ backing.old) }
    ensures causes { SilentCauses B.faults backing.old backing.new result }
    ensures kept { Keeps machine.old machine.new }
    ensures device { DeviceAfterCalls B.holds B.size B.calls B.faults backing.old backing.new }
{
    if after < before {
        shorten_array(
            &mut machine.cpu,
            &mut machine.areas,
            &mut machine.sectors,
            original,
            after,
        );
        return Ok(());
    }
    if before == after {
        return Ok(());
    }
    match lengthen_array(
        &mut machine.cpu,
        &mut machine.areas,
        &mut machine.sectors,
        backing,
        original,
        after,
    ) {
        Ok(()) => Ok(()),
        Err(fault) => Err(stopped(machine, fault, before, after)),
    }
}

/// RESIZE: the array has another length, and the call is cut. Where its array is absent, or the call faults, nothing is
/// changed; where too few sectors are free or the device fails, the machine represents the same session.
#[inline(always)]
pub(crate) fn resize<B: Backing>(machine: &mut Machine, backing: &mut B) -> Result<CallEnd, Stop>
    requires calls { CallsSome machine.old RESIZE }
    requires same { B.size backing.old + 1 ≡ length machine.old.sectors.links }
    ensures row { ForCalls machine.old RESIZE (λ x told plan s m t. Says told (B.holds backing.old)
        → ResizeAnswers (content_after told (B.holds backing.new)) (B.size backing.old) x plan s m t result machine.old machine.new) }
    ensures present { ForCalls machine.old RESIZE (λ x told plan s m t. CallTouches x plan m t result) }
    ensures quiet { ForCalls machine.old RESIZE (λ x told plan s m t. (CallWrites x plan m t result → ⊥) → backing.new ≡ backing.old) }
    ensures causes { SilentCauses B.faults backing.old backing.new result }
    ensures kept { Keeps machine.old machine.new }
    ensures device { DeviceAfterCalls B.holds B.size B.calls B.faults backing.old backing.new }
{
    let found = match array_to_resize(&machine.cpu) {
        Ok(found) => found,
        Err(fault) => return Ok(CallEnd::Fault(fault)),
    };
    match found {
        Resizing::Absent(original) => Ok(CallEnd::Absent(What::Array(original))),
        Resizing::Lengths {
            original,
            before,
            after,
        } => {
            let next = next_place(machine);
            match set_length(machine, backing, original, before, after) {
                Ok(()) => {
                    cut_call(&mut machine.cpu, next);
                    Ok(CallEnd::Done)
                }
                Err(stop) => Err(stop),
            }
        }
    }
}
