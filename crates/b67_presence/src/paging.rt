//! An absent array, data row or segment brought into a hole.

ghost use Rattle.std.specs.Prelude.{◌≡◌, ◌⊎◌, ◌+◌, ◌^◌, ◌<◌, ◌≤◌, Some, None, Err, length, if◌then◌else◌};
ghost use Rattle.b67_area.specs.declared.Kind.TheVariants.{Array, Row};
ghost use Rattle.b67_backing.specs.Shelf.{Shelf, HasChain};
ghost use Rattle.b67_backing.specs.Held.{OnlyWords, sectors_for};
ghost use Rattle.b67_io.specs.Causes.{HasCause, Rose};
ghost use Rattle.b67_ctl.specs.declared.registers.Regs.{Regs};
ghost use Rattle.b67_stack.specs.MachineView.{PagedObject, MachineView, home_word_of, tag_of};
ghost use Rattle.b67_stack.specs.Represents.{Storage, Represents};
ghost use Rattle.b67_layout.specs.Machine.{IsAbsent, DeviceAfterReads, PagingKeeps};
ghost use Rattle.b67_overlay.specs.Spans.{MachineCanPage};
ghost use Rattle.b67_presence.specs.declared.paging.PagingRefusal.TheVariants.{NoHole, BackingFault};
ghost use Rattle.b67_presence.specs.Brought.{resting, FillsArea};
ghost use Rattle.b67_presence.specs.Brings.{PagesIn};

use b67_area::{Areas, Kind};
use b67_backing::{Backing, Sectors};
use b67_core::Core;
use b67_ctl::{DataDesc, SegDesc};
use b67_stack::Cpu;
use b67_word::{Failed, Word};

/// Why nothing was brought in: no hole has room, or the device failed.
#[derive(Clone, Copy, Debug, PartialEq, Eq)]
pub enum PagingRefusal {
    NoHole,
    BackingFault,
}

/// What an absent original or segment descriptor says: the words, and the first sector of the chain that holds them, 0 for
/// zeros.
#[derive(Clone, Copy, Debug, PartialEq, Eq)]
pub struct AbsentObject {
    pub kind: Kind,
    pub words: u32,
    pub first: u32,
}

/// The kind of a descriptor in a stack or in a dictionary.
fn data_kind(read_only: bool) -> Kind
    ensures { result ≡ (if read_only then Row else Array) }
{
    if read_only { Kind::Row } else { Kind::Array }
}

impl AbsentObject {
    /// What the descriptor at an address says.
    pub fn at(core: &Core, home: u32) -> AbsentObject
        requires { (x : Storage) × (r : Regs) × (p : MachineView) × (t : PagedObject) × Represents x core.now r p × IsAbsent x p home t }
        ensures { (x : Storage) (r : Regs) (p : MachineView) (t : PagedObject) → Represents x core.now r p → IsAbsent x p home t → result ≡ resting x t }
    {
        let w = core.get(home);
        if w.tag() == 3 {
            let segment = SegDesc::read(w);
            return AbsentObject {
                kind: Kind::Code,
                words: segment.words,
                first: segment.address,
            };
        }
        let data = DataDesc::read(w);
        AbsentObject {
            kind: data_kind(data.read_only),
            words: data.length,
            first: data.address,
        }
    }

    /// The tag of the words.
    fn tag(self) -> u8
        ensures value { result ≡ tag_of self.kind }
        ensures small { result < 8 }
    {
        match self.kind {
            Kind::Array | Kind::Row => 0,
            Kind::Code => 3,
        }
    }

    /// The descriptor's word where the words lie in an area.
    fn present(self, at: u32) -> Word
        requires words { self.words < 2 ^ 20 }
        requires address { at < 2 ^ 20 }
        ensures { result ≡ home_word_of self.kind self.words (record { area = Some at; chain = self.first }) }
    {
        match self.kind {
            Kind::Array => DataDesc::original(true, false, self.words, at),
            Kind::Row => DataDesc::original(true, true, self.words, at),
            Kind::Code => SegDesc {
                present: true,
                words: self.words,
                address: at,
            }
            .word(),
        }
    }

    /// Puts the words into an area.
    fn fill<B: Backing>(
        self,
        core: &mut Core,
        at: u32,
        sectors: &Sectors,
        backing: &mut B,
    ) -> Result<(), Failed>
        requires some { 1 ≤ self.words }
        requires inside { at + self.words ≤ length core.old }
        requires chain { (self.first ≡ 0) ⊎ ((st : Shelf) × HasChain sectors.now st self.first (sectors_for self.words)) }
        requires same { B.size backing.old + 1 ≡ length sectors.now.links }
        ensures fills { FillsArea (B.holds backing.old) sectors.now at self result core.new backing.old backing.new }
        ensures rest { OnlyWords at self.words core.old core.new }
        ensures device { DeviceAfterReads B.holds B.size B.calls B.faults backing.old backing.new }
        ensures cause { HasCause B.faults backing.old backing.new result }
    {
        if self.first == 0 {
            core.fill(at, self.words, Word::of(0, 0));
            return Ok(());
        }
        sectors.restore(self.first, core, at, self.words, self.tag(), backing)
    }
}

/// Brings the array, data row or segment of an absent original or segment descriptor into the lowest hole with room for it.
/// No area moves. If it was never touched, no device is called, and it is refused only if there is no hole.
pub fn page_in<B: Backing>(
    cpu: &mut Cpu,
    areas: &mut Areas,
    sectors: &Sectors,
    backing: &mut B,
    home: u32,
) -> Result<(), PagingRefusal>
    requires machine { (x : Storage) × (p : MachineView) × (t : PagedObject) × MachineCanPage x cpu.old areas.old sectors.now (B.holds backing.old) p × IsAbsent x p home t }
    requires same { B.size backing.old + 1 ≡ length sectors.now.links }
    ensures keeps { PagingKeeps cpu.old cpu.new areas.old areas.new sectors.now sectors.now }
    ensures row { (x : Storage) (p : MachineView) (t : PagedObject) → MachineCanPage x cpu.old areas.old sectors.now (B.holds backing.old) p → IsAbsent x p home t
        → PagesIn B.holds x p home t result cpu.old cpu.new areas.new sectors.now backing.old backing.new }
    ensures unchanged { result ≡ Err NoHole → (cpu.new ≡ cpu.old) × (backing.new ≡ backing.old) }
    ensures device { DeviceAfterReads B.holds B.size B.calls B.faults backing.old backing.new }
    ensures cause { result ≡ Err BackingFault → Rose B.faults backing.old backing.new }
{
    let object = AbsentObject::at(&cpu.core, home);
    match areas.place(&mut cpu.core, object.kind, object.words, home) {
        None => Err(PagingRefusal::NoHole),
        Some(at) => match object.fill(&mut cpu.core, at, sectors, backing) {
            Ok(()) => {
                areas.keep(&mut cpu.core, at, object.first);
                cpu.core.set(home, object.present(at));
                Ok(())
            }
            Err(_) => {
                areas.free(&mut cpu.core, at);
                Err(PagingRefusal::BackingFault)
            }
        },
    }
}
