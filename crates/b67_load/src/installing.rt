//! A program's dictionary, and where its segments and data rows rest.

ghost use Rattle.std.specs.Prelude.{◌≡◌, ◌+◌, ◌<◌, ◌≤◌, ◌^◌, ◌∷◌, [], length, map, take, OnOk, IfErr, IfOk};
ghost use Rattle.std.specs.List.{AllByRecursion};
ghost use Rattle.b67_word.specs.Tagged.{contents};
ghost use Rattle.b67_word.specs.Numbers.{number};
ghost use Rattle.b67_area.specs.declared.Kind.TheVariants.{Code, Row};
ghost use Rattle.b67_backing.specs.Shelf.{Shelf, IsShelf, first as first_of, taken};
ghost use Rattle.b67_backing.specs.Held.{Changes, SameBut, Stores, KeepsCounts, sectors_for};
ghost use Rattle.b67_backing.specs.declared.refusals.SpaceFault.TheVariants.{BackingFault};
ghost use Rattle.b67_codefile.specs.Spelling.{IsFileSegment, IsRow, IsWithin};
ghost use Rattle.b67_codefile.specs.Meaning.{segment_of, program_of};
ghost use Rattle.b67_stack.specs.declared.Cpu.{Cpu};
ghost use Rattle.b67_load.specs.Objects.{code_from, rows_from, program_objects, entries_of, sectors_of_objects, sectors_of_program};
ghost use Rattle.b67_load.specs.Writing.{Spares, Writes, HasSectors, Installed};

use crate::admitted::Admitted;
use b67_backing::{Backing, Sectors, SpaceFault, sectors_needed};
use b67_codefile::{Codefile, Segment};
use b67_core::Core;
use b67_ctl::{DataDesc, MCP_STACK, Mscw, SegDesc};
use b67_stack::Cpu;
use b67_word::{Word, Words};

/// Writes words to a chain of free sectors, and answers its first.
fn store_words<B: Backing>(
    sectors: &mut Sectors,
    backing: &mut B,
    words: &[Word],
) -> Result<u32, SpaceFault>
    requires some { 1 ≤ length words.now }
    requires few { length words.now < 2 ^ 16 }
    requires sectors { HasSectors (B.size backing.old) sectors.old (sectors_for (length words.now)) }
    ensures first { IfOk result (λ x. (st : Shelf) → IsShelf sectors.old st → x ≡ first_of st.free) }
    ensures small { IfOk result (λ x. x < 2 ^ 20) }
    ensures shelf { (st : Shelf) → IsShelf sectors.old st → IsShelf sectors.new (taken (sectors_for (length words.now)) st) }
    ensures stores { OnOk result ((st : Shelf) → IsShelf sectors.old st
        → Changes B.holds backing.old backing.new (Stores (take (sectors_for (length words.now)) st.free) (map number words.now))) }
    ensures others { (st : Shelf) → IsShelf sectors.old st
        → Changes B.holds backing.old backing.new (SameBut (take (sectors_for (length words.now)) st.free)) }
    ensures count { length sectors.new.links ≡ length sectors.old.links }
    ensures refusal { IfErr result (λ fault. fault ≡ BackingFault) }
    ensures device { KeepsCounts B.size B.calls B.faults backing.old backing.new result }
{
    let first = match sectors.take(sectors_needed(words.len() as u32)) {
        Some(first) => first,
        None => unreachable!(),
    };
    match sectors.store(first, words, backing) {
        Ok(()) => Ok(first),
        Err(_) => Err(SpaceFault::BackingFault),
    }
}

/// Writes a segment to sectors, and its descriptor to core.
fn install_segment<B: Backing>(
    core: &mut Core,
    sectors: &mut Sectors,
    backing: &mut B,
    at: u32,
    segment: &Segment,
) -> Result<(), SpaceFault>
    requires inside { at < length core.old }
    requires within { IsFileSegment segment.now }
    requires sectors { HasSectors (B.size backing.old) sectors.old (sectors_for (length segment.now.code)) }
    ensures writes { OnOk result (Writes B.holds (record { home = at; kind = Code; numbers = contents segment.now.code } ∷ [])
        (record { core = core.old; table = sectors.old; device = backing.old })
        (record { core = core.new; table = sectors.new; device = backing.new })) }
    ensures spares { Spares B.holds at 1
        (record { core = core.old; table = sectors.old; device = backing.old })
        (record { core = core.new; table = sectors.new; device = backing.new }) }
    ensures refusal { IfErr result (λ fault. fault ≡ BackingFault) }
    ensures device { KeepsCounts B.size B.calls B.faults backing.old backing.new result }
{
    let code = segment.code.as_slice();
    let first = store_words(sectors, backing, code)?;
    let descriptor = SegDesc {
        present: false,
        words: code.len() as u32,
        address: first,
    };
    core.set(at, descriptor.word());
    Ok(())
}

/// Writes a data row to sectors, and its original to core.
fn install_row<B: Backing>(
    core: &mut Core,
    sectors: &mut Sectors,
    backing: &mut B,
    at: u32,
    row: &Words,
) -> Result<(), SpaceFault>
    requires inside { at < length core.old }
    requires within { IsRow row.now }
    requires sectors { HasSectors (B.size backing.old) sectors.old (sectors_for (length row.now)) }
    ensures writes { OnOk result (Writes B.holds (record { home = at; kind = Row; numbers = contents row.now } ∷ [])
        (record { core = core.old; table = sectors.old; device = backing.old })
        (record { core = core.new; table = sectors.new; device = backing.new })) }
    ensures spares { Spares B.holds at 1
        (record { core = core.old; table = sectors.old; device = backing.old })
        (record { core = core.new; table = sectors.new; device = backing.new }) }
    ensures refusal { IfErr result (λ fault. fault ≡ BackingFault) }
    ensures device { KeepsCounts B.size B.calls B.faults backing.old backing.new result }
{
    let words = row.as_slice();
    let first = store_words(sectors, backing, words)?;
    let original = DataDesc {
        present: false,
        copy: false,
        indexed: false,
        read_only: true,
        length: words.len() as u32,
        address: first,
    };
    core.set(at, original.word());
    Ok(())
}

/// Writes segments to sectors, and their descriptors to core, one after the other.
fn install_segments<B: Backing>(
    core: &mut Core,
    sectors: &mut Sectors,
    backing: &mut B,
    base: u32,
    segments: &[Segment],
) -> Result<(), SpaceFault>
    requires inside { base + length segments.now ≤ length core.old }
    requires within { AllByRecursion IsFileSegment segments.now }
    requires sectors { HasSectors (B.size backing.old) sectors.old (sectors_of_objects (code_from base (map segment_of segments.now))) }
    ensures writes { OnOk result (Writes B.holds (code_from base (map segment_of segments.now))
        (record { core = core.old; table = sectors.old; device = backing.old })
        (record { core = core.new; table = sectors.new; device = backing.new })) }
    ensures spares { Spares B.holds base (length segments.now)
        (record { core = core.old; table = sectors.old; device = backing.old })
        (record { core = core.new; table = sectors.new; device = backing.new }) }
    ensures refusal { IfErr result (λ fault. fault ≡ BackingFault) }
    ensures device { KeepsCounts B.size B.calls B.faults backing.old backing.new result }
{
    let _size = core.size();
    let mut at = base;
    for segment in segments {
        install_segment(core, sectors, backing, at, segment)?;
        at += 1;
    }
    Ok(())
}

/// Writes data rows to sectors, and their originals to core, one after the other.
fn install_rows<B: Backing>(
    core: &mut Core,
    sectors: &mut Sectors,
    backing: &mut B,
    base: u32,
    rows: &[Words],
) -> Result<(), SpaceFault>
    requires inside { base + length rows.now ≤ length core.old }
    requires within { AllByRecursion IsRow rows.now }
    requires sectors { HasSectors (B.size backing.old) sectors.old (sectors_of_objects (rows_from base (map contents rows.now))) }
    ensures writes { OnOk result (Writes B.holds (rows_from base (map contents rows.now))
        (record { core = core.old; table = sectors.old; device = backing.old })
        (record { core = core.new; table = sectors.new; device = backing.new })) }
    ensures spares { Spares B.holds base (length rows.now)
        (record { core = core.old; table = sectors.old; device = backing.old })
        (record { core = core.new; table = sectors.new; device = backing.new }) }
    ensures refusal { IfErr result (λ fault. fault ≡ BackingFault) }
    ensures device { KeepsCounts B.size B.calls B.faults backing.old backing.new result }
{
    let _size = core.size();
    let mut at = base;
    for row in rows {
        install_row(core, sectors, backing, at, row)?;
        at += 1;
    }
    Ok(())
}

/// Writes a program's segments and data rows to sectors, and the entries of its dictionary at `base` to core.
fn install_objects<B: Backing>(
    core: &mut Core,
    sectors: &mut Sectors,
    backing: &mut B,
    base: u32,
    file: &Codefile,
) -> Result<(), SpaceFault>
    requires inside { base + (2 + entries_of (program_of file.now)) ≤ length core.old }
    requires within { IsWithin file.now }
    requires sectors { HasSectors (B.size backing.old) sectors.old (sectors_of_objects (program_objects base (program_of file.now))) }
    ensures writes { OnOk result (Writes B.holds (program_objects base (program_of file.now))
        (record { core = core.old; table = sectors.old; device = backing.old })
        (record { core = core.new; table = sectors.new; device = backing.new })) }
    ensures spares { Spares B.holds (base + 2) (entries_of (program_of file.now))
        (record { core = core.old; table = sectors.old; device = backing.old })
        (record { core = core.new; table = sectors.new; device = backing.new }) }
    ensures refusal { IfErr result (λ fault. fault ≡ BackingFault) }
    ensures device { KeepsCounts B.size B.calls B.faults backing.old backing.new result }
{
    let _size = core.size();
    let segments = file.segments.as_slice();
    let rows = file.rows.as_slice();
    install_segments(core, sectors, backing, base + 2, segments)?;
    install_rows(
        core,
        sectors,
        backing,
        base + (2 + segments.len() as u32),
        rows,
    )
}

/// Writes the dictionary of a program at `base`, and its code and data rows to sectors that were free: in the order of
/// the file, each to a chain of its own, so that each descriptor in the dictionary is absent. The code's words have tag 3
/// there, those of data rows tag 0. Refused with `BackingFault` alone, where the device failed; then the dictionary's
/// words and the sectors that were free may hold anything, and maybe fewer sectors are free.
pub fn install<B: Backing>(
    cpu: &mut Cpu,
    sectors: &mut Sectors,
    backing: &mut B,
    base: u32,
    program: &Admitted,
) -> Result<(), SpaceFault>
    requires inside { base + (2 + entries_of (program_of program.now)) ≤ length cpu.old.core }
    requires sectors { HasSectors (B.size backing.old) sectors.old (sectors_of_program (program_of program.now)) }
    ensures installed { OnOk result (Installed B.holds base (program_of program.now)
        (record { core = cpu.old.core; table = sectors.old; device = backing.old })
        (record { core = cpu.new.core; table = sectors.new; device = backing.new })) }
    // Whatever is answered, no other word of core is changed, and the chains that were there and what they hold stay.
    ensures spares { Spares B.holds base (2 + entries_of (program_of program.now))
        (record { core = cpu.old.core; table = sectors.old; device = backing.old })
        (record { core = cpu.new.core; table = sectors.new; device = backing.new }) }
    ensures cpu { cpu.new ≡ record cpu.old { core = cpu.new.core } }
    ensures refusal { IfErr result (λ fault. fault ≡ BackingFault) }
    ensures device { KeepsCounts B.size B.calls B.faults backing.old backing.new result }
{
    let _size = cpu.core.size();
    let file = program.file();
    let mark = Mscw {
        far: true,
        entered: true,
        env_stack: MCP_STACK,
        env_disp: 0,
        value: false,
        level: 1,
        back: 0,
    };
    let entries = file.segments.as_slice().len() + file.rows.as_slice().len();
    cpu.core.set(base, mark.word());
    cpu.core.set(base + 1, Word::of(0, entries as u64));
    install_objects(&mut cpu.core, sectors, backing, base, file)
}
