//! Areas that are given back.

ghost use Rattle.std.specs.Prelude.{◌≡◌, ◌≢◌, ◌↔◌, ◌⊎◌, ℕ, ◌+◌, ◌^◌, ◌<◌, ◌≤◌, List, Option, Some, None, Err, OnOk, OnErr, IsOk, length};
ghost use Rattle.b67_area.specs.declared.Kind.TheVariants.{Array, Row, Code};
ghost use Rattle.b67_backing.specs.Shelf.{Table};
ghost use Rattle.b67_backing.specs.declared.SpaceFault.TheVariants.{NoCore, BackingFull, BackingFault};
ghost use Rattle.b67_ctl.specs.Descriptors.{data_word};
ghost use Rattle.b67_io.specs.Causes.{Rose};
ghost use Rattle.b67_stack.specs.Shapes.{Location};
ghost use Rattle.b67_stack.specs.MachineView.{PagedObject, MachineView, home_desc, home_word_of};
ghost use Rattle.b67_stack.specs.Represents.{Storage, Represents, info_of};
ghost use Rattle.b67_stack.specs.HeldOtherwise.{LowWordsStayed};
ghost use Rattle.b67_layout.specs.Machine.{IsPresent, DeviceAfterCalls, PagingKeeps};
ghost use Rattle.b67_overlay.specs.Turns.{Hides};
ghost use Rattle.b67_overlay.specs.Overlaid.{overlaid, dropped, IsOut};
ghost use Rattle.b67_overlay.specs.AreasEvicted.{Overlays};
ghost use Rattle.b67_overlay.specs.Spans.{CopiesLie, MachineCanPage};

use crate::search::search_copies;
use crate::writing::write_out;
use b67_area::{Areas, Info, Kind};
use b67_backing::{Backing, Sectors, SpaceFault};
use b67_ctl::{DataDesc, SegDesc};
use b67_stack::Cpu;
use b67_word::Word;

/// The word of the original or segment descriptor of an object that isn't in core.
fn absent_word(info: Info, first: u32) -> Word
    requires words { info.words < 2 ^ 20 }
    requires first { first < 2 ^ 20 }
    ensures { result ≡ home_word_of info.kind info.words (record { area = None; chain = first }) }
{
    match info.kind {
        Kind::Array => DataDesc::original(false, false, info.words, first),
        Kind::Row => DataDesc::original(false, true, info.words, first),
        Kind::Code => SegDesc {
            present: false,
            words: info.words,
            address: first,
        }
        .word(),
    }
}

/// Makes the copies absent that have the address of an area. No copy has that of a segment's.
fn hide_copies(cpu: &mut Cpu, area: u32, info: Info)
    requires { (x : Storage) × (p : MachineView) × (t : PagedObject) × Represents x cpu.old.core cpu.old.regs p × CopiesLie cpu.old.core p × IsPresent x p area t × (info ≡ info_of x t) }
    ensures rest { cpu.new ≡ record cpu.old { core = cpu.new.core } }
    ensures hides { (x : Storage) (p : MachineView) (t : PagedObject) (h : Location) → Represents x cpu.old.core cpu.old.regs p → CopiesLie cpu.old.core p → IsPresent x p area t → info ≡ info_of x t
        → Hides x cpu.old.core cpu.new.core p t h }
{
    match info.kind {
        Kind::Array | Kind::Row => search_copies(cpu, area, info.owner),
        Kind::Code => {}
    }
}

/// Gives an area back whose words are in the chain of this first sector.
fn give_back(cpu: &mut Cpu, areas: &mut Areas, area: u32, info: Info, first: u32)
    requires machine { (x : Storage) × (p : MachineView) × (t : PagedObject) × Represents x cpu.old.core cpu.old.regs p × CopiesLie cpu.old.core p × (areas.old.low ≡ x.low) × IsPresent x p area t × (info ≡ info_of x t) }
    requires first { first < 2 ^ 20 }
    ensures rest { cpu.new ≡ record cpu.old { core = cpu.new.core } }
    ensures areas { areas.new ≡ areas.old }
    ensures len { length cpu.new.core ≡ length cpu.old.core }
    ensures stands { (x y : Storage) (p : MachineView) (t : PagedObject) → Represents x cpu.old.core cpu.old.regs p → CopiesLie cpu.old.core p → areas.old.low ≡ x.low → IsPresent x p area t → info ≡ info_of x t
        → IsOut x y p t first → Represents (dropped x y t area first) cpu.new.core cpu.new.regs p }
    ensures outside { (x : Storage) (p : MachineView) (t : PagedObject) → Represents x cpu.old.core cpu.old.regs p → CopiesLie cpu.old.core p → areas.old.low ≡ x.low → IsPresent x p area t → info ≡ info_of x t
        → LowWordsStayed p cpu.old.core cpu.new.core }
{
    hide_copies(cpu, area, info);
    cpu.core.set(info.owner, absent_word(info, first));
    areas.free(&mut cpu.core, area);
}

/// Gives back the area of code or of a data row, whose words are in sectors already. No device is called.
pub fn discard(cpu: &mut Cpu, areas: &mut Areas, area: u32)
    requires { (x : Storage) × (p : MachineView) × (t : PagedObject) × Represents x cpu.old.core cpu.old.regs p × CopiesLie cpu.old.core p × (areas.old.low ≡ x.low) × IsPresent x p area t × (t.kind ≢ Array) }
    ensures rest { cpu.new ≡ record cpu.old { core = cpu.new.core } }
    ensures len { length cpu.new.core ≡ length cpu.old.core }
    ensures areas { areas.new ≡ areas.old }
    ensures stands { (x : Storage) (table : Table) (told : Option (List (List ℕ))) (p : MachineView) (t : PagedObject) → MachineCanPage x cpu.old areas.old table told p
        → IsPresent x p area t → t.kind ≢ Array → MachineCanPage (overlaid x t area told) cpu.new areas.new table told p }
    ensures outside { (x : Storage) (p : MachineView) (t : PagedObject) → Represents x cpu.old.core cpu.old.regs p → CopiesLie cpu.old.core p → areas.old.low ≡ x.low → IsPresent x p area t
        → LowWordsStayed p cpu.old.core cpu.new.core }
{
    let info = areas.info(&cpu.core, area);
    give_back(cpu, areas, area, info, info.kept);
}

/// Takes an area out of core: the words of an array are written to its chain of sectors, those of code and data rows are
/// there already. Its copies become absent, and its original or segment descriptor. Nothing of core is changed if it is
/// refused.
pub fn overlay<B: Backing>(
    cpu: &mut Cpu,
    areas: &mut Areas,
    sectors: &mut Sectors,
    backing: &mut B,
    area: u32,
) -> Result<(), SpaceFault>
    requires machine { (x : Storage) × (p : MachineView) × (t : PagedObject) × MachineCanPage x cpu.old areas.old sectors.old (B.holds backing.old) p × IsPresent x p area t }
    requires same { B.size backing.old + 1 ≡ length sectors.old.links }
    ensures keeps { PagingKeeps cpu.old cpu.new areas.old areas.new sectors.old sectors.new }
    ensures row { (x : Storage) (p : MachineView) (t : PagedObject) → MachineCanPage x cpu.old areas.old sectors.old (B.holds backing.old) p → IsPresent x p area t
        → Overlays B.holds x p area t result cpu.old cpu.new areas.new sectors.old sectors.new backing.old backing.new }
    ensures unchanged { OnErr result (cpu.new ≡ cpu.old) }
    ensures no_core { (need size : ℕ) → result ≢ Err (NoCore need size) }
    ensures device { DeviceAfterCalls B.holds B.size B.calls B.faults backing.old backing.new }
    ensures cause { result ≡ Err BackingFault → Rose B.faults backing.old backing.new }
{
    let info = areas.info(&cpu.core, area);
    match info.kind {
        Kind::Row | Kind::Code => {
            discard(cpu, areas, area);
            Ok(())
        }
        Kind::Array => {
            match write_out(&cpu.core, sectors, backing, area, info.words, info.kept) {
                Ok(first) => {
                    give_back(cpu, areas, area, info, first);
                    Ok(())
                }
                Err(fault) => Err(fault),
            }
        }
    }
}
