//! Areas that are evicted for an object.

ghost use Rattle.std.specs.Prelude.{◌≡◌, ◌≢◌, ℕ, ◌+◌, Err, List, length};
ghost use Rattle.b67_area.specs.Spans.{Span};
ghost use Rattle.b67_area.specs.Directory.{IsDirectory};
ghost use Rattle.b67_backing.specs.declared.SpaceFault.TheVariants.{NoCore, BackingFault};
ghost use Rattle.b67_io.specs.Causes.{Rose};
ghost use Rattle.b67_stack.specs.MachineView.{PagedObject, MachineView};
ghost use Rattle.b67_stack.specs.Represents.{Storage};
ghost use Rattle.b67_layout.specs.Machine.{IsAbsent, IsPresent, DeviceAfterCalls, PagingKeeps};
ghost use Rattle.b67_overlay.specs.Spans.{MachineCanPage};
ghost use Rattle.b67_presence.specs.Brings.{EvictsArea, EvictsSome, MakesWay, PointsAtArea};

use crate::paging::{PagingRefusal, page_in};
use b67_area::Areas;
use b67_backing::{Backing, Sectors, SpaceFault};
use b67_core::Core;
use b67_overlay::overlay;
use b67_stack::Cpu;

/// What a count is multiplied by, modulo 2^64, so that near counts come to lie far apart: 2^64 divided by the golden ratio.
const SPREAD: u64 = 11_400_714_819_323_198_485;

/// Takes an area out of core, if it isn't the one at `spare`, and tries to bring the object of an absent descriptor in. False
/// if there is still no hole for it, or nothing was done.
fn evict_area<B: Backing>(
    cpu: &mut Cpu,
    areas: &mut Areas,
    sectors: &mut Sectors,
    backing: &mut B,
    home: u32,
    at: u32,
    spare: u32,
) -> Result<bool, SpaceFault>
    requires machine { (x : Storage) × (p : MachineView) × (t : PagedObject) × (u : PagedObject) × MachineCanPage x cpu.old areas.old sectors.old (B.holds backing.old) p × IsAbsent x p home t × IsPresent x p at u }
    requires same { B.size backing.old + 1 ≡ length sectors.old.links }
    ensures keeps { PagingKeeps cpu.old cpu.new areas.old areas.new sectors.old sectors.new }
    ensures row { (x : Storage) (p : MachineView) (t u : PagedObject) → MachineCanPage x cpu.old areas.old sectors.old (B.holds backing.old) p → IsAbsent x p home t → IsPresent x p at u
        → EvictsArea x p t u at spare result cpu.old cpu.new areas.new sectors.new (B.holds backing.new) }
    ensures no_core { (need size : ℕ) → result ≢ Err (NoCore need size) }
    ensures device { DeviceAfterCalls B.holds B.size B.calls B.faults backing.old backing.new }
    ensures cause { result ≡ Err BackingFault → Rose B.faults backing.old backing.new }
{
    if at == spare {
        return Ok(false);
    }
    match overlay(cpu, areas, sectors, backing, at) {
        Err(fault) => Err(fault),
        Ok(()) => match page_in(cpu, areas, sectors, backing, home) {
            Ok(()) => Ok(true),
            Err(PagingRefusal::NoHole) => Ok(false),
            Err(PagingRefusal::BackingFault) => Err(SpaceFault::BackingFault),
        },
    }
}

/// The address at which the search for the first area to go begins, by the count of operators made: for seven counts in eight
/// the low end of core, else any address of it. So areas that nobody uses any more leave in time, wherever they lie. An image
/// has the count too, and a machine that goes on from one pages as it would have.
pub(crate) fn start_of(made: u64, size: u32) -> u32 {
    let mixed = (made.wrapping_mul(SPREAD) / 4_294_967_296) as u32;
    if mixed % 8 != 0 || size == 0 {
        return 0;
    }
    mixed / 8 % size
}

/// The lowest area at an address from `start` on.
fn area_from(areas: &Areas, core: &Core, start: u32) -> Option<u32>
    requires { (ss : List Span) × IsDirectory core.now areas.now.low ss }
    ensures { (ss : List Span) → IsDirectory core.now areas.now.low ss → PointsAtArea areas.now.low ss result }
{
    let mut next = areas.first(core);
    'areas: while let Some(at) = next {
        if at >= start {
            return Some(at);
        }
        next = areas.after(core, at);
    }
    None
}

/// Takes one area out of core, the lowest from `start` on, if there is one and it isn't at `spare`, and tries to bring the
/// object of an absent descriptor in. False if there is still no hole for it, or nothing was done.
fn evict_one<B: Backing>(
    cpu: &mut Cpu,
    areas: &mut Areas,
    sectors: &mut Sectors,
    backing: &mut B,
    home: u32,
    spare: u32,
    start: u32,
) -> Result<bool, SpaceFault>
    requires machine { (x : Storage) × (p : MachineView) × (t : PagedObject) × MachineCanPage x cpu.old areas.old sectors.old (B.holds backing.old) p × IsAbsent x p home t }
    requires same { B.size backing.old + 1 ≡ length sectors.old.links }
    ensures keeps { PagingKeeps cpu.old cpu.new areas.old areas.new sectors.old sectors.new }
    ensures row { (x : Storage) (p : MachineView) (t : PagedObject) → MachineCanPage x cpu.old areas.old sectors.old (B.holds backing.old) p → IsAbsent x p home t
        → EvictsSome x p t spare result cpu.old cpu.new areas.new sectors.new (B.holds backing.new) }
    ensures no_core { (need size : ℕ) → result ≢ Err (NoCore need size) }
    ensures device { DeviceAfterCalls B.holds B.size B.calls B.faults backing.old backing.new }
    ensures cause { result ≡ Err BackingFault → Rose B.faults backing.old backing.new }
{
    match area_from(areas, &cpu.core, start) {
        Some(at) => evict_area(cpu, areas, sectors, backing, home, at, spare),
        None => Ok(false),
    }
}

/// Takes areas out of core, from the lowest up, but not the one at `spare`, until the object of an absent descriptor is
/// brought in. False if no other area is left and there is no hole for it.
fn evict_upward<B: Backing>(
    cpu: &mut Cpu,
    areas: &mut Areas,
    sectors: &mut Sectors,
    backing: &mut B,
    home: u32,
    spare: u32,
) -> Result<bool, SpaceFault>
    requires machine { (x : Storage) × (p : MachineView) × (t : PagedObject) × MachineCanPage x cpu.old areas.old sectors.old (B.holds backing.old) p × IsAbsent x p home t }
    requires same { B.size backing.old + 1 ≡ length sectors.old.links }
    ensures keeps { PagingKeeps cpu.old cpu.new areas.old areas.new sectors.old sectors.new }
    ensures row { (x : Storage) (p : MachineView) (t : PagedObject) → MachineCanPage x cpu.old areas.old sectors.old (B.holds backing.old) p → IsAbsent x p home t
        → MakesWay x p t spare result cpu.old cpu.new areas.new sectors.new (B.holds backing.new) }
    ensures no_core { (need size : ℕ) → result ≢ Err (NoCore need size) }
    ensures device { DeviceAfterCalls B.holds B.size B.calls B.faults backing.old backing.new }
    ensures cause { result ≡ Err BackingFault → Rose B.faults backing.old backing.new }
{
    let mut next = areas.first(&cpu.core);
    'areas: while let Some(at) = next {
        next = areas.after(&cpu.core, at);
        match evict_area(cpu, areas, sectors, backing, home, at, spare) {
            Ok(false) => {}
            Ok(true) => return Ok(true),
            Err(fault) => return Err(fault),
        }
    }
    Ok(false)
}

/// Takes areas out of core, but not the one at `spare`, until the object of an absent descriptor is brought in: the lowest one
/// from `start` on first, then from the lowest up. False if no other area is left and there is no hole for it.
pub fn make_way<B: Backing>(
    cpu: &mut Cpu,
    areas: &mut Areas,
    sectors: &mut Sectors,
    backing: &mut B,
    home: u32,
    spare: u32,
    start: u32,
) -> Result<bool, SpaceFault>
    requires machine { (x : Storage) × (p : MachineView) × (t : PagedObject) × MachineCanPage x cpu.old areas.old sectors.old (B.holds backing.old) p × IsAbsent x p home t }
    requires same { B.size backing.old + 1 ≡ length sectors.old.links }
    ensures keeps { PagingKeeps cpu.old cpu.new areas.old areas.new sectors.old sectors.new }
    ensures row { (x : Storage) (p : MachineView) (t : PagedObject) → MachineCanPage x cpu.old areas.old sectors.old (B.holds backing.old) p → IsAbsent x p home t
        → MakesWay x p t spare result cpu.old cpu.new areas.new sectors.new (B.holds backing.new) }
    ensures no_core { (need size : ℕ) → result ≢ Err (NoCore need size) }
    ensures device { DeviceAfterCalls B.holds B.size B.calls B.faults backing.old backing.new }
    ensures cause { result ≡ Err BackingFault → Rose B.faults backing.old backing.new }
{
    match evict_one(cpu, areas, sectors, backing, home, spare, start) {
        Ok(true) => Ok(true),
        Ok(false) => evict_upward(cpu, areas, sectors, backing, home, spare),
        Err(fault) => Err(fault),
    }
}
