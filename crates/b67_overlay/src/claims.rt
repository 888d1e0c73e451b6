//! A part of core that is cleared of areas.

ghost use Rattle.std.specs.Prelude.{◌≡◌, ◌≢◌, ℕ, ◌+◌, Err, length};
ghost use Rattle.b67_backing.specs.declared.SpaceFault.TheVariants.{NoCore, BackingFull, BackingFault};
ghost use Rattle.b67_io.specs.Causes.{Rose};
ghost use Rattle.b67_stack.specs.MachineView.{MachineView};
ghost use Rattle.b67_stack.specs.Represents.{Storage};
ghost use Rattle.b67_layout.specs.Machine.{DeviceAfterCalls, PagingKeeps};
ghost use Rattle.b67_overlay.specs.AreasEvicted.{Claims};
ghost use Rattle.b67_overlay.specs.Spans.{MachineCanPage};

use crate::overlays::overlay;
use b67_area::Areas;
use b67_backing::{Backing, Sectors, SpaceFault};
use b67_stack::Cpu;

/// Takes each area out of core that has a word, its head included, below an address; each other area stays as it is.
/// `BackingFull` occurs only for an array of such an area that keeps no sectors, if fewer are free than it needs, and
/// `BackingFault` only if the backing's count of faults rose. Areas that were given back before a refusal stay so.
pub fn claim<B: Backing>(
    cpu: &mut Cpu,
    areas: &mut Areas,
    sectors: &mut Sectors,
    backing: &mut B,
    upto: u32,
) -> Result<(), SpaceFault>
    requires machine { (x : Storage) × (p : MachineView) × MachineCanPage x cpu.old areas.old sectors.old (B.holds backing.old) p }
    requires same { B.size backing.old + 1 ≡ length sectors.old.links }
    ensures keeps { PagingKeeps cpu.old cpu.new areas.old areas.new sectors.old sectors.new }
    ensures row { (x : Storage) (p : MachineView) → MachineCanPage x cpu.old areas.old sectors.old (B.holds backing.old) p
        → Claims x p upto result cpu.old cpu.new areas.new sectors.new (B.holds backing.new) }
    ensures no_core { (need size : ℕ) → result ≢ Err (NoCore need size) }
    ensures device { DeviceAfterCalls B.holds B.size B.calls B.faults backing.old backing.new }
    ensures cause { result ≡ Err BackingFault → Rose B.faults backing.old backing.new }
{
    let mut next = areas.first(&cpu.core);
    'areas: while let Some(at) = next {
        if at > upto {
            return Ok(());
        }
        next = areas.after(&cpu.core, at);
        match overlay(cpu, areas, sectors, backing, at) {
            Ok(()) => {}
            Err(fault) => return Err(fault),
        }
    }
    Ok(())
}
