//! Writing an image.

ghost use Rattle.std.specs.Prelude.{◌≡◌, ◌+◌, ◌<◌, ◌≤◌, ◌++◌, Some, length, take, drop, slice_get, OnOk, OnErr};
ghost use Rattle.std.specs.List.{flat_map};
ghost use Rattle.b67_io.specs.Told.{Took, TookPart};
ghost use Rattle.b67_io.specs.Causes.{HasCause};
ghost use Rattle.b67_backing.specs.Links.{links_in};
ghost use Rattle.b67_image.specs.Parts.{parts_of};
ghost use Rattle.b67_image.specs.Spelling.{image_bytes, listed_bytes, tagged_bytes, four_bytes, two_bytes, signed_bytes, switch_bytes, job_bytes, task_row_bytes, cpu_bytes, tables_bytes};
ghost use Rattle.b67_image.specs.Image.{image_text};
ghost use Rattle.b67_io.specs.Line.{ended};
ghost use Rattle.b67_image.specs.Text.{card_lines, last_card};
ghost use Rattle.b67_image.specs.Punching.{Punched};

use crate::item::{
    areas_item, count_item, counts_item, job_item, length_item, regs_item, row_item, switch_item,
};
use crate::punch::{Hand, put_text};
use b67_backing::Sectors;
use b67_core::{Core, to_number};
use b67_io::Sink;
use b67_model_text::Switch;
use b67_task::{JobRow, Machine, TaskRow};
use b67_word::Failed;

/// The text B67IMAGE.
const HEADER: u64 = 0x4236_3749_4d41_4745;

/// So many sectors are looked at together.
const WINDOW: u32 = 4096;

/// Puts how many items follow.
fn put_count<K: Sink>(sink: &mut K, hand: &mut Hand, count: usize) -> Result<(), Failed>
    ensures row { Punched K.taken sink.old sink.new hand.old hand.new result (four_bytes count) }
    ensures cause { HasCause K.faults sink.old sink.new result }
{
    hand.punch(sink, count_item(count).as_slice())
}

fn put_core<K: Sink>(sink: &mut K, hand: &mut Hand, core: &Core) -> Result<(), Failed>
    ensures row { Punched K.taken sink.old sink.new hand.old hand.new result (listed_bytes tagged_bytes core.now) }
    ensures cause { HasCause K.faults sink.old sink.new result }
{
    let size = core.size();
    put_count(sink, hand, size as usize)?;
    'words: for at in 0..size {
        hand.punch(sink, &to_number(core.get(at)).to_be_bytes())?;
    }
    Ok(())
}

fn put_display<K: Sink>(sink: &mut K, hand: &mut Hand, addresses: &[u32]) -> Result<(), Failed>
    ensures row { Punched K.taken sink.old sink.new hand.old hand.new result (flat_map four_bytes addresses.now) }
    ensures cause { HasCause K.faults sink.old sink.new result }
{
    let _held = hand.len();
    'each: for n in addresses {
        hand.punch(sink, &n.to_be_bytes())?;
    }
    Ok(())
}

fn put_critical<K: Sink>(sink: &mut K, hand: &mut Hand, places: &[u16]) -> Result<(), Failed>
    ensures row { Punched K.taken sink.old sink.new hand.old hand.new result (flat_map two_bytes places.now) }
    ensures cause { HasCause K.faults sink.old sink.new result }
{
    let _held = hand.len();
    'each: for n in places {
        hand.punch(sink, &n.to_be_bytes())?;
    }
    Ok(())
}

fn put_sectors<K: Sink>(sink: &mut K, hand: &mut Hand, sectors: &Sectors) -> Result<(), Failed>
    ensures row { Punched K.taken sink.old sink.new hand.old hand.new result (listed_bytes four_bytes (links_in sectors.now)) }
    ensures cause { HasCause K.faults sink.old sink.new result }
{
    let count = sectors.count();
    put_count(sink, hand, count as usize)?;
    let mut done = 0;
    'windows: while done < count {
        let many = (count - done).min(WINDOW);
        put_window(sink, hand, sectors, done, many)?;
        done += many;
    }
    Ok(())
}

/// Puts the links of a window of sectors, of which so many come before. The free sectors are walked once for all of them.
fn put_window<K: Sink>(
    sink: &mut K,
    hand: &mut Hand,
    sectors: &Sectors,
    before: u32,
    many: u32,
) -> Result<(), Failed>
    requires some { 1 ≤ many }
    requires few { many ≤ 4096 }
    requires inside { before + many < length sectors.now.links }
    ensures row { Punched K.taken sink.old sink.new hand.old hand.new result (flat_map four_bytes (take many (drop before (links_in sectors.now)))) }
    ensures cause { HasCause K.faults sink.old sink.new result }
{
    let _held = hand.len();
    let _count = sectors.count();
    let mut marks = [false; WINDOW as usize];
    sectors.mark_free(before + 1, &mut marks);
    'each: for k in 0..many {
        let link = sectors.link_marked(before + k + 1, marks[k as usize]);
        hand.punch(sink, &link.to_be_bytes())?;
    }
    Ok(())
}

fn put_switches<K: Sink>(sink: &mut K, hand: &mut Hand, switches: &[Switch]) -> Result<(), Failed>
    ensures row { Punched K.taken sink.old sink.new hand.old hand.new result (listed_bytes switch_bytes switches.now) }
    ensures cause { HasCause K.faults sink.old sink.new result }
{
    put_count(sink, hand, switches.len())?;
    'each: for switch in switches {
        hand.punch(sink, switch_item(*switch).as_slice())?;
    }
    Ok(())
}

/// A number, by which the prover sees that it is within the range of its type.
fn read_number(numbers: &[i64], at: usize) -> i64
    requires { at < length numbers.now }
    ensures { slice_get numbers.now at ≡ Some result }
{
    numbers[at]
}

fn put_numbers<K: Sink>(sink: &mut K, hand: &mut Hand, numbers: &[i64]) -> Result<(), Failed>
    ensures row { Punched K.taken sink.old sink.new hand.old hand.new result (listed_bytes signed_bytes numbers.now) }
    ensures cause { HasCause K.faults sink.old sink.new result }
{
    let count = numbers.len();
    put_count(sink, hand, count)?;
    'each: for at in 0..count {
        let number = read_number(numbers, at);
        hand.punch(sink, &number.cast_unsigned().to_be_bytes())?;
    }
    Ok(())
}

/// The name, the numbers of the tables, the numbers for READ, and which of them is next.
fn put_job<K: Sink>(sink: &mut K, hand: &mut Hand, job: &JobRow) -> Result<(), Failed>
    ensures row { Punched K.taken sink.old sink.new hand.old hand.new result (job_bytes job.now) }
    ensures cause { HasCause K.faults sink.old sink.new result }
{
    let name = job.name.as_str().as_bytes();
    hand.punch(sink, length_item(name.len()).as_slice())?;
    hand.punch(sink, name)?;
    hand.punch(sink, job_item(job).as_slice())?;
    put_numbers(sink, hand, job.numbers.as_slice())?;
    hand.punch(sink, &job.next_number.to_be_bytes())?;
    Ok(())
}

fn put_jobs<K: Sink>(sink: &mut K, hand: &mut Hand, jobs: &[JobRow]) -> Result<(), Failed>
    ensures row { Punched K.taken sink.old sink.new hand.old hand.new result (listed_bytes job_bytes jobs.now) }
    ensures cause { HasCause K.faults sink.old sink.new result }
{
    put_count(sink, hand, jobs.len())?;
    'each: for job in jobs {
        put_job(sink, hand, job)?;
    }
    Ok(())
}

fn put_rows<K: Sink>(sink: &mut K, hand: &mut Hand, rows: &[TaskRow]) -> Result<(), Failed>
    ensures row { Punched K.taken sink.old sink.new hand.old hand.new result (listed_bytes task_row_bytes rows.now) }
    ensures cause { HasCause K.faults sink.old sink.new result }
{
    put_count(sink, hand, rows.len())?;
    'each: for row in rows {
        hand.punch(sink, row_item(*row).as_slice())?;
    }
    Ok(())
}

/// Puts core and the registers.
fn put_cpu<K: Sink>(sink: &mut K, hand: &mut Hand, machine: &Machine) -> Result<(), Failed>
    ensures row { Punched K.taken sink.old sink.new hand.old hand.new result (cpu_bytes (parts_of machine.now)) }
    ensures cause { HasCause K.faults sink.old sink.new result }
{
    let cpu = &machine.cpu;
    put_core(sink, hand, &cpu.core)?;
    hand.punch(sink, regs_item(cpu.regs).as_slice())?;
    put_display(sink, hand, &cpu.display)?;
    put_critical(sink, hand, &cpu.critical)?;
    Ok(())
}

/// Puts the tables of jobs and tasks.
fn put_tables<K: Sink>(sink: &mut K, hand: &mut Hand, machine: &Machine) -> Result<(), Failed>
    ensures row { Punched K.taken sink.old sink.new hand.old hand.new result (tables_bytes (parts_of machine.now)) }
    ensures cause { HasCause K.faults sink.old sink.new result }
{
    let tasks = &machine.tasks;
    hand.punch(sink, counts_item(tasks).as_slice())?;
    put_switches(sink, hand, tasks.switches.as_slice())?;
    put_jobs(sink, hand, tasks.jobs.as_slice())?;
    put_rows(sink, hand, tasks.rows.as_slice())?;
    Ok(())
}

/// The fields of an image, in their order.
#[tactic(auto, unfolding(crate::specs::Spelling::image_bytes))]
fn put_machine<K: Sink>(sink: &mut K, hand: &mut Hand, machine: &Machine) -> Result<(), Failed>
    ensures row { Punched K.taken sink.old sink.new hand.old hand.new result (image_bytes (parts_of machine.now)) }
    ensures cause { HasCause K.faults sink.old sink.new result }
{
    hand.punch(sink, &HEADER.to_be_bytes())?;
    put_cpu(sink, hand, machine)?;
    hand.punch(sink, areas_item(machine.areas).as_slice())?;
    put_sectors(sink, hand, &machine.sectors)?;
    put_tables(sink, hand, machine)?;
    Ok(())
}

fn put_cards<K: Sink>(sink: &mut K, machine: &Machine) -> Result<(), Failed>
    ensures whole { OnOk result (Took K.taken sink.old sink.new (card_lines (image_bytes (parts_of machine.now)))) }
    ensures part { OnErr result (TookPart K.taken sink.old sink.new (card_lines (image_bytes (parts_of machine.now)))) }
    ensures cause { HasCause K.faults sink.old sink.new result }
{
    let mut hand = Hand::new();
    match put_machine(sink, &mut hand, machine) {
        Ok(()) => hand.finish(sink),
        Err(failed) => Err(failed),
    }
}

fn put_end<K: Sink>(sink: &mut K, machine: &Machine) -> Result<(), Failed>
    ensures whole { OnOk result (Took K.taken sink.old sink.new (card_lines (image_bytes (parts_of machine.now)) ++ ended last_card)) }
    ensures part { OnErr result (TookPart K.taken sink.old sink.new (card_lines (image_bytes (parts_of machine.now)) ++ ended last_card)) }
    ensures cause { HasCause K.faults sink.old sink.new result }
{
    match put_cards(sink, machine) {
        Ok(()) => put_text(sink, b"?END\n"),
        Err(failed) => Err(failed),
    }
}

/// Prints the image of a machine. No memory is taken. After a failure a proper prefix of the image is printed.
#[tactic(auto, unfolding(crate::specs::Image::image_text))]
pub fn write_image<K: Sink>(machine: &Machine, sink: &mut K) -> Result<(), Failed>
    requires { machine.now.tasks.printed ≡ 0 }
    ensures whole { OnOk result (Took K.taken sink.old sink.new (image_text machine.now)) }
    ensures part { OnErr result (TookPart K.taken sink.old sink.new (image_text machine.now)) }
    ensures cause { HasCause K.faults sink.old sink.new result }
{
    match put_text(sink, b"?IMAGE\n") {
        Ok(()) => put_end(sink, machine),
        Err(failed) => Err(failed),
    }
}
