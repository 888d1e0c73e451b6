//! Objects that are brought into core, whatever has to be evicted.

ghost use Rattle.std.specs.Prelude.{◌≡◌, ◌≢◌, ℕ, ◌+◌, ◌≤◌, Err, length};
ghost use Rattle.b67_backing.specs.declared.SpaceFault.TheVariants.{NoCore, BackingFull, BackingFault};
ghost use Rattle.b67_ctl.specs.declared.registers.Regs.{Regs};
ghost use Rattle.b67_io.specs.Causes.{Rose};
ghost use Rattle.b67_stack.specs.MachineView.{PagedObject, MachineView};
ghost use Rattle.b67_stack.specs.Represents.{Storage, Represents};
ghost use Rattle.b67_layout.specs.Machine.{IsAbsent, DeviceAfterCalls, PagingKeeps, HasHole};
ghost use Rattle.b67_overlay.specs.Spans.{MachineCanPage};
ghost use Rattle.b67_overlay.specs.AreasEvicted.{IsShortBy};
ghost use Rattle.b67_presence.specs.Brings.{StandsEvicted, IsCode, need_one, need_both, IsAlone, FoundHole, NoHoleStill, PlacesInRoom, PlacesBoth, FailsByDevice, ForcesCode, BringsCode, BringsData};

use crate::paging::{PagingRefusal, page_in};
use crate::way::make_way;
use b67_area::Areas;
use b67_backing::{Backing, Sectors, SpaceFault};
use b67_core::Core;
use b67_ctl::SegDesc;
use b67_overlay::discard;
use b67_stack::Cpu;

/// The segment descriptor of code that is in core.
fn segment_at(core: &Core, code: u32) -> SegDesc
    requires { (x : Storage) × (r : Regs) × (p : MachineView) × (c : PagedObject) × (at : ℕ) × Represents x core.now r p × IsCode x p code at c }
    ensures { (x : Storage) (r : Regs) (p : MachineView) (c : PagedObject) (at : ℕ) → Represents x core.now r p → IsCode x p code at c
        → (result.words ≡ length c.numbers) × (result.address ≡ at) }
{
    SegDesc::read(core.get(code))
}

/// Brings the object of an absent descriptor in, where there is a hole for it.
fn page_in_room<B: Backing>(
    cpu: &mut Cpu,
    areas: &mut Areas,
    sectors: &Sectors,
    backing: &mut B,
    home: u32,
) -> Result<(), SpaceFault>
    requires machine { (x : Storage) × (p : MachineView) × (t : PagedObject) × MachineCanPage x cpu.old areas.old sectors.now (B.holds backing.old) p × IsAbsent x p home t × HasHole (length t.numbers + 2) x.spans }
    requires same { B.size backing.old + 1 ≡ length sectors.now.links }
    ensures keeps { PagingKeeps cpu.old cpu.new areas.old areas.new sectors.now sectors.now }
    ensures row { (x : Storage) (p : MachineView) (t : PagedObject) → MachineCanPage x cpu.old areas.old sectors.now (B.holds backing.old) p → IsAbsent x p home t
        → PlacesInRoom x p t result cpu.old cpu.new areas.new sectors.now (B.holds backing.new) }
    ensures fails { FailsByDevice result }
    ensures device { DeviceAfterCalls B.holds B.size B.calls B.faults backing.old backing.new }
    ensures cause { result ≡ Err BackingFault → Rose B.faults backing.old backing.new }
{
    match page_in(cpu, areas, sectors, backing, home) {
        Ok(()) => Ok(()),
        Err(PagingRefusal::BackingFault) => Err(SpaceFault::BackingFault),
        Err(PagingRefusal::NoHole) => unreachable!(),
    }
}

/// Gives the running code's area back, the last one, places the object of an absent descriptor, and then the code again.
fn evict_code<B: Backing>(
    cpu: &mut Cpu,
    areas: &mut Areas,
    sectors: &Sectors,
    backing: &mut B,
    home: u32,
    code: u32,
    spare: u32,
) -> Result<(), SpaceFault>
    requires machine { (x : Storage) × (p : MachineView) × (t : PagedObject) × (c : PagedObject) × MachineCanPage x cpu.old areas.old sectors.now (B.holds backing.old) p × IsAbsent x p home t × IsCode x p code spare c
        × IsAlone x spare × (need_both x c t ≤ length cpu.old.core) }
    requires same { B.size backing.old + 1 ≡ length sectors.now.links }
    ensures keeps { PagingKeeps cpu.old cpu.new areas.old areas.new sectors.now sectors.now }
    ensures row { (x : Storage) (p : MachineView) (t c : PagedObject) → MachineCanPage x cpu.old areas.old sectors.now (B.holds backing.old) p → IsAbsent x p home t → IsCode x p code spare c
        → IsAlone x spare → PlacesBoth x p t c result cpu.old cpu.new areas.new sectors.now (B.holds backing.new) }
    ensures fails { FailsByDevice result }
    ensures device { DeviceAfterCalls B.holds B.size B.calls B.faults backing.old backing.new }
    ensures cause { result ≡ Err BackingFault → Rose B.faults backing.old backing.new }
{
    discard(cpu, areas, spare);
    match page_in_room(cpu, areas, sectors, backing, home) {
        Ok(()) => page_in_room(cpu, areas, sectors, backing, code),
        Err(fault) => Err(fault),
    }
}

/// Brings the code of an absent segment descriptor in where no hole has room for it, but core has.
fn force_code<B: Backing>(
    cpu: &mut Cpu,
    areas: &mut Areas,
    sectors: &mut Sectors,
    backing: &mut B,
    code: u32,
    start: u32,
) -> Result<(), SpaceFault>
    requires machine { (x : Storage) × (p : MachineView) × (t : PagedObject) × MachineCanPage x cpu.old areas.old sectors.old (B.holds backing.old) p × IsAbsent x p code t × (need_one x t ≤ length cpu.old.core) }
    requires same { B.size backing.old + 1 ≡ length sectors.old.links }
    ensures keeps { PagingKeeps cpu.old cpu.new areas.old areas.new sectors.old sectors.new }
    ensures row { (x : Storage) (p : MachineView) (t : PagedObject) → MachineCanPage x cpu.old areas.old sectors.old (B.holds backing.old) p → IsAbsent x p code t
        → ForcesCode x p t result cpu.old cpu.new areas.new sectors.new (B.holds backing.new) }
    ensures no_core { (need size : ℕ) → result ≢ Err (NoCore need size) }
    ensures device { DeviceAfterCalls B.holds B.size B.calls B.faults backing.old backing.new }
    ensures cause { result ≡ Err BackingFault → Rose B.faults backing.old backing.new }
{
    match make_way(cpu, areas, sectors, backing, code, 0, start) {
        Ok(true) => Ok(()),
        Ok(false) => page_in_room(cpu, areas, sectors, backing, code),
        Err(fault) => Err(fault),
    }
}

/// Brings the object of an absent descriptor in where no hole has room for it, but core has it for the object and the running
/// code.
fn force_data<B: Backing>(
    cpu: &mut Cpu,
    areas: &mut Areas,
    sectors: &mut Sectors,
    backing: &mut B,
    home: u32,
    code: u32,
    spare: u32,
    start: u32,
) -> Result<(), SpaceFault>
    requires machine { (x : Storage) × (p : MachineView) × (t : PagedObject) × (c : PagedObject) × MachineCanPage x cpu.old areas.old sectors.old (B.holds backing.old) p × IsAbsent x p home t × IsCode x p code spare c
        × (need_both x c t ≤ length cpu.old.core) }
    requires same { B.size backing.old + 1 ≡ length sectors.old.links }
    ensures keeps { PagingKeeps cpu.old cpu.new areas.old areas.new sectors.old sectors.new }
    ensures row { (x : Storage) (p : MachineView) (t c : PagedObject) → MachineCanPage x cpu.old areas.old sectors.old (B.holds backing.old) p → IsAbsent x p home t → IsCode x p code spare c
        → PlacesBoth x p t c result cpu.old cpu.new areas.new sectors.new (B.holds backing.new) }
    ensures full { (x : Storage) (p : MachineView) (t : PagedObject) (wants free : ℕ) → MachineCanPage x cpu.old areas.old sectors.old (B.holds backing.old) p → IsAbsent x p home t
        → result ≡ Err (BackingFull wants free) → (w : StandsEvicted x p spare cpu.new areas.new sectors.new (B.holds backing.new)) × IsShortBy w.storage p wants free × NoHoleStill (length t.numbers + 2) x w.storage }
    ensures no_core { (need size : ℕ) → result ≢ Err (NoCore need size) }
    ensures device { DeviceAfterCalls B.holds B.size B.calls B.faults backing.old backing.new }
    ensures cause { result ≡ Err BackingFault → Rose B.faults backing.old backing.new }
{
    match make_way(cpu, areas, sectors, backing, home, spare, start) {
        Ok(true) => Ok(()),
        Ok(false) => evict_code(cpu, areas, sectors, backing, home, code, spare),
        Err(fault) => Err(fault),
    }
}

/// Brings the code of an absent segment descriptor into core, which has the words that the stacks and the code need. If a
/// hole has room for it, no area moves and nothing is written to the device; else areas are written out, the first one from
/// `start` on and then from the lowest up, until one has. Refused if an array that must be written out finds too few free sectors, or if the device failed.
/// After a refusal the machine represents the same view, and if a hole has room, no area has moved.
pub fn bring_code<B: Backing>(
    cpu: &mut Cpu,
    areas: &mut Areas,
    sectors: &mut Sectors,
    backing: &mut B,
    code: u32,
    start: u32,
) -> Result<(), SpaceFault>
    requires machine { (x : Storage) × (p : MachineView) × (t : PagedObject) × MachineCanPage x cpu.old areas.old sectors.old (B.holds backing.old) p × IsAbsent x p code t
        × (need_one x t ≤ length cpu.old.core) }
    requires same { B.size backing.old + 1 ≡ length sectors.old.links }
    ensures keeps { PagingKeeps cpu.old cpu.new areas.old areas.new sectors.old sectors.new }
    ensures row { (x : Storage) (p : MachineView) (t : PagedObject) → MachineCanPage x cpu.old areas.old sectors.old (B.holds backing.old) p → IsAbsent x p code t
        → BringsCode x p t result cpu.old cpu.new areas.new sectors.new (B.holds backing.new) }
    ensures hole { (x : Storage) (p : MachineView) (t : PagedObject) → MachineCanPage x cpu.old areas.old sectors.old (B.holds backing.old) p → IsAbsent x p code t
        → HasHole (length t.numbers + 2) x.spans → FoundHole B.holds x p t result cpu.new areas.new sectors.old sectors.new backing.old backing.new }
    ensures no_core { (need size : ℕ) → result ≢ Err (NoCore need size) }
    ensures device { DeviceAfterCalls B.holds B.size B.calls B.faults backing.old backing.new }
    ensures cause { result ≡ Err BackingFault → Rose B.faults backing.old backing.new }
{
    match page_in(cpu, areas, sectors, backing, code) {
        Ok(()) => Ok(()),
        Err(PagingRefusal::BackingFault) => Err(SpaceFault::BackingFault),
        Err(PagingRefusal::NoHole) => force_code(cpu, areas, sectors, backing, code, start),
    }
}

/// Brings the array or data row of an absent original into core beside the running code, which is there; core has the words
/// that the stacks, the code and the array need. If a hole has room for it, no area moves and nothing is written to the
/// device; else areas are written out, the first one from `start` on and then from the lowest up, until one has; at last the running code is evicted too and comes
/// back after the array. Refused if an array that must be written out finds too few free sectors, or if the device failed.
/// After a refusal the machine represents the same view, and the array or the running code is absent. An array of zeros that
/// was never touched is never refused if a hole has room, and calls no device.
pub fn bring_data<B: Backing>(
    cpu: &mut Cpu,
    areas: &mut Areas,
    sectors: &mut Sectors,
    backing: &mut B,
    home: u32,
    code: u32,
    start: u32,
) -> Result<(), SpaceFault>
    requires machine { (x : Storage) × (p : MachineView) × (t : PagedObject) × (c : PagedObject) × (at : ℕ) × MachineCanPage x cpu.old areas.old sectors.old (B.holds backing.old) p × IsAbsent x p home t × IsCode x p code at c
        × (need_both x c t ≤ length cpu.old.core) }
    requires same { B.size backing.old + 1 ≡ length sectors.old.links }
    ensures keeps { PagingKeeps cpu.old cpu.new areas.old areas.new sectors.old sectors.new }
    ensures row { (x : Storage) (p : MachineView) (t c : PagedObject) (at : ℕ) → MachineCanPage x cpu.old areas.old sectors.old (B.holds backing.old) p → IsAbsent x p home t → IsCode x p code at c
        → BringsData B.holds x p home t c at result cpu.old cpu.new areas.new sectors.new backing.old backing.new }
    ensures hole { (x : Storage) (p : MachineView) (t : PagedObject) → MachineCanPage x cpu.old areas.old sectors.old (B.holds backing.old) p → IsAbsent x p home t
        → HasHole (length t.numbers + 2) x.spans → FoundHole B.holds x p t result cpu.new areas.new sectors.old sectors.new backing.old backing.new }
    ensures no_core { (need size : ℕ) → result ≢ Err (NoCore need size) }
    ensures device { DeviceAfterCalls B.holds B.size B.calls B.faults backing.old backing.new }
    ensures cause { result ≡ Err BackingFault → Rose B.faults backing.old backing.new }
{
    let segment = segment_at(&cpu.core, code);
    match page_in(cpu, areas, sectors, backing, home) {
        Ok(()) => Ok(()),
        Err(PagingRefusal::BackingFault) => Err(SpaceFault::BackingFault),
        Err(PagingRefusal::NoHole) => {
            force_data(
                cpu,
                areas,
                sectors,
                backing,
                home,
                code,
                segment.address,
                start,
            )
        }
    }
}
