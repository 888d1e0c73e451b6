//! Reading an image.

ghost use Rattle.std.specs.Prelude.{◌≡◌, ◌≤◌, length, IfOk, None};
ghost use Rattle.b67_image.specs.Text.{limit, bytes_of};
ghost use Rattle.b67_image.specs.Cards.{AreBytes};
ghost use Rattle.b67_image.specs.Meaning.{CanBeRun, IsTold, IsMeant, IsImageRead, is_wanted, of_image, parts_told, told_in};
ghost use Rattle.b67_image.specs.Found.{counts_found, found_parts, HaveTables};
ghost use Rattle.b67_image.specs.Parts.{parts_of};
ghost use Rattle.b67_image.specs.Within.{ArePartsWithin};
ghost use Rattle.b67_image.specs.Machines.{IsMachineOf};

use crate::cards::{Spelled, bytes_of};
use crate::fault::ImageFault;
use crate::flaw::Flaw;
use crate::parts::{Found, TableCounts, parts_in};
use crate::shape::{has_header, has_shape};
use arrayvec::ArrayVec;
use b67_backing::Sectors;
use b67_card::{ReadFault, Refused, read_up_to};
use b67_image_shape::is_shaped;
use b67_io::Source;
use b67_model::IMAGE_BYTES;
use b67_model_text::Switches;
use b67_stack::Cpu;
use b67_task::{JobRows, MOST_ROWS, Machine, TaskRow, Tasks};
use b67_word::Bytes;
use std::alloc::Global;

/// An image has at most so many bytes.
const LIMIT: usize = IMAGE_BYTES;

/// The tables of these numbers and lists, with no count at which the run stops, and nothing printed.
fn tasks_of(
    counts: TableCounts,
    switches: Switches,
    jobs: JobRows,
    rows: ArrayVec<TaskRow, MOST_ROWS>,
) -> Tasks
    ensures { HaveTables (counts_found counts) switches jobs rows.items result }
{
    Tasks {
        jobs,
        rows,
        switches,
        next_switch: counts.next_switch,
        quantum: counts.quantum,
        halt: None,
        made: counts.made,
        turn: counts.turn,
        last_job: counts.last_job,
        last_number: counts.last_number,
        running: counts.running,
        printed: 0,
    }
}

/// The machine of these parts. Reason 8 comes exactly if no machine with these parts represents a session.
fn machine_of(alloc: Global, found: Found) -> Result<Machine, Refused>
    ensures { IsMachineOf result (found_parts found) }
{
    let Found {
        core,
        regs,
        display,
        critical,
        areas,
        links,
        counts,
        switches,
        jobs,
        rows,
    } = found;
    let sectors = match Sectors::of_links(alloc, links.as_slice()) {
        Ok(Some(sectors)) => sectors,
        Ok(None) => return Err(Refused::Reason(8)),
        Err(_) => return Err(Refused::Memory),
    };
    let machine = Machine {
        cpu: Cpu {
            core,
            regs,
            display,
            critical,
        },
        areas,
        sectors,
        tasks: tasks_of(counts, switches, jobs, rows),
    };
    let shaped = match is_shaped(alloc, &machine) {
        Ok(shaped) => shaped,
        Err(_) => return Err(Refused::Memory),
    };
    if !shaped {
        return Err(Refused::Reason(8));
    }
    Ok(machine)
}

/// Whether so many sectors are wanted.
fn are_wanted(sectors: Option<u32>, count: usize) -> bool
    ensures { result ≡ is_wanted sectors count }
{
    match sectors {
        None => true,
        Some(wanted) => count == wanted as usize,
    }
}

/// The machine that bytes tell, or the lowest reason of 4 to 8 why they don't.
#[tactic(auto, unfolding(crate::specs::Meaning::parts_told))]
fn machine_in(alloc: Global, sectors: Option<u32>, bytes: &[u8]) -> Result<Machine, Refused>
    ensures { IsTold result (parts_told sectors bytes.now) }
{
    if !has_header(bytes) {
        return Err(Refused::Reason(4));
    }
    if !has_shape(bytes) {
        return Err(Refused::Reason(5));
    }
    match parts_in(alloc, bytes) {
        Ok(found) => {
            if !are_wanted(sectors, found.links.as_slice().len()) {
                return Err(Refused::Reason(7));
            }
            machine_of(alloc, found)
        }
        Err(Flaw::Bad) => Err(Refused::Reason(6)),
        Err(Flaw::Memory) => Err(Refused::Memory),
    }
}

/// The answer of a text whose first card has this number.
fn of_image(card: u32, told: Result<Machine, Refused>) -> Result<Machine, ImageFault>
    ensures { result ≡ of_image card told }
{
    match told {
        Ok(machine) => Ok(machine),
        Err(Refused::Reason(reason)) => Err(ImageFault::Card { card, reason }),
        Err(Refused::Memory) => Err(ImageFault::Memory),
    }
}

/// The bytes of a text's image. The text is given up, so that it isn't held beside the machine.
fn spelled_in(alloc: Global, text: Bytes) -> Result<Spelled, ImageFault>
    requires { length text ≤ limit }
    ensures { AreBytes result (bytes_of text) }
{
    bytes_of(alloc, text.as_slice())
}

/// The machine that a text within the limit tells.
fn image_in(alloc: Global, sectors: Option<u32>, text: Bytes) -> Result<Machine, ImageFault>
    requires { length text ≤ limit }
    ensures { IsMeant result (told_in sectors text) }
{
    match spelled_in(alloc, text) {
        Ok(spelled) => of_image(
            spelled.card,
            machine_in(alloc, sectors, spelled.bytes.as_slice()),
        ),
        Err(fault) => Err(fault),
    }
}

/// Reads an image from a source, to its end or to the first byte past the limit of 67,108,864. The answer is a machine with the
/// parts that the image tells, all of them within their ranges, which represents a session in order. It has no count at which it
/// stops, and its free sectors are taken in the order of their numbers. A refusal names a card, counted from 1 (0 is none), and
/// the lowest of these reasons, of which 9 is looked for first:
///
/// | reason | the card |
/// |---|---|
/// | 1 | the last, where none is `?IMAGE` |
/// | 2 | the first behind `?IMAGE` that is neither `?END` nor at most 64 hexadecimal digits, an even number |
/// | 3 | the last, where no `?END` follows |
/// | 4 to 8 | `?IMAGE`, where the bytes don't begin with B67IMAGE; end within an item or go on behind the last; have a number or a name out of its range; have another number of sectors than is wanted; or are those of no machine that represents a session |
/// | 9 | that of the first byte past the limit |
///
/// While the text is read and decoded, it and its bytes are held, which grow by doubling: at most three times the text. The text is
/// given up before the machine is made, which takes less than the bytes.
pub fn read_image<S: Source>(
    alloc: Global,
    source: &mut S,
    sectors: Option<u32>,
) -> Result<Machine, ImageFault>
    ensures answer { IsImageRead S.left S.faults source.old source.new sectors result }
    ensures within { IfOk result (λ m. ArePartsWithin (parts_of m)) }
    ensures runs { IfOk result (λ m. CanBeRun sectors m) }
    ensures later { S.faults source.old ≤ S.faults source.new }
{
    match read_up_to(alloc, source, LIMIT) {
        Ok(text) => image_in(alloc, sectors, text),
        Err(ReadFault::TooLong { card }) => of_image(card, Err(Refused::Reason(9))),
        Err(ReadFault::SourceFault) => Err(ImageFault::SourceFault),
        Err(ReadFault::Memory) => Err(ImageFault::Memory),
    }
}
