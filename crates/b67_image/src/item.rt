//! The bytes of small items, in big-endian order.

ghost use Rattle.std.specs.Prelude.{◌≡◌, ◌≤◌, ◌+◌, ◌++◌, [], length};
ghost use Rattle.std.specs.Int.{to_be_bytes};
ghost use Rattle.b67_image.specs.Spelling.{one_byte, two_bytes, four_bytes, eight_bytes, place_bytes, regs_bytes, areas_bytes, counts_bytes, switch_bytes, job_front, state_bytes, task_row_bytes};
ghost use Rattle.b67_image.specs.Parts.{told_counts};

use arrayvec::ArrayVec;
use b67_area::Areas;
use b67_ctl::Regs;
use b67_model_text::Switch;
use b67_task::{JobRow, TaskRow, TaskState, Tasks};
use b67_word::Place;
use std::marker::Model;

/// At most 64 bytes.
#[derive(Drop)]
pub struct Item {
    bytes: ArrayVec<u8, 64>,
}

impl Model for Item {
    ghost use Rattle.std.specs.Prelude.{List, ℕ};

    ghost Value = { List ℕ };

    ghost view = { λ i. i.bytes.items };
}

impl Item {
    /// No bytes.
    pub fn new() -> Self
        ensures { result ≡ [] }
    {
        Item {
            bytes: ArrayVec::new(),
        }
    }

    /// The bytes.
    pub fn as_slice(&self) -> &[u8]
        ensures { result.now ≡ self.now }
    {
        self.bytes.as_slice()
    }

    /// Appends bytes.
    pub fn put(&mut self, bytes: &[u8])
        requires { length self.old + length bytes.now ≤ 64 }
        ensures { self.new ≡ self.old ++ bytes.now }
    {
        let _ = self.bytes.try_extend_from_slice(bytes);
    }

    /// Appends a number in one byte.
    pub fn one(&mut self, n: u8)
        requires { length self.old + 1 ≤ 64 }
        ensures { self.new ≡ self.old ++ one_byte n }
    {
        self.put(&n.to_be_bytes());
    }

    /// Appends a number in two bytes.
    pub fn two(&mut self, n: u16)
        requires { length self.old + 2 ≤ 64 }
        ensures { self.new ≡ self.old ++ two_bytes n }
    {
        self.put(&n.to_be_bytes());
    }

    /// Appends a number in four bytes.
    pub fn four(&mut self, n: u32)
        requires { length self.old + 4 ≤ 64 }
        ensures { self.new ≡ self.old ++ four_bytes n }
    {
        self.put(&n.to_be_bytes());
    }

    /// Appends a number in eight bytes.
    pub fn eight(&mut self, n: u64)
        requires { length self.old + 8 ≤ 64 }
        ensures { self.new ≡ self.old ++ eight_bytes n }
    {
        self.put(&n.to_be_bytes());
    }

    /// Appends a place of code: its word in two bytes and its syllable in one.
    pub fn place(&mut self, p: Place)
        requires { length self.old + 3 ≤ 64 }
        ensures { self.new ≡ self.old ++ place_bytes p }
    {
        self.two(p.word);
        self.one(p.syllable);
    }

    /// Appends whether a task may go on: the kind in one byte, a number in four and an offset in two.
    pub fn state(&mut self, state: TaskState)
        requires { length self.old + 7 ≤ 64 }
        ensures { self.new ≡ self.old ++ state_bytes state }
    {
        let (kind, number, offset) = match state {
            TaskState::Ready => (0, 0, 0),
            TaskState::Awaits(n) => (1, n, 0),
            TaskState::WaitsAt { mark, offset } => (2, mark, offset),
        };
        self.one(kind);
        self.four(number);
        self.two(offset);
    }
}

/// How many items follow, in four bytes: of greater numbers the last 32 bits.
pub fn count_item(count: usize) -> Item
    ensures { result ≡ four_bytes count }
{
    let mut item = Item::new();
    item.four((count % 0x1_0000_0000) as u32);
    item
}

/// The length of a name, in a byte: of a greater number the last 8 bits.
pub fn length_item(length: usize) -> Item
    ensures { result ≡ one_byte length }
{
    let mut item = Item::new();
    item.one((length % 0x100) as u8);
    item
}

/// The registers.
pub fn regs_item(r: Regs) -> Item
    ensures { result ≡ regs_bytes r }
{
    let mut item = Item::new();
    item.four(r.s);
    item.four(r.f);
    item.four(r.bosr);
    item.four(r.losr);
    item.one(r.slot);
    item.one(r.level);
    item.two(r.segment);
    item.place(r.place);
    item.four(r.dict);
    item.two(r.entries);
    item.four(r.stacks);
    item.two(r.stack_size);
    item.one(r.peak);
    item
}

/// Where areas begin and end.
pub fn areas_item(areas: Areas) -> Item
    ensures { result ≡ areas_bytes areas }
{
    let mut item = Item::new();
    item.four(areas.size);
    item.four(areas.low);
    item
}

/// The numbers of the tables.
pub fn counts_item(tasks: &Tasks) -> Item
    ensures { result ≡ counts_bytes (told_counts tasks.now) }
{
    let mut item = Item::new();
    item.four(tasks.quantum);
    item.eight(tasks.made);
    item.four(tasks.turn);
    item.one(tasks.last_job);
    item.four(tasks.last_number);
    item.one(tasks.running);
    item.four(tasks.next_switch);
    item
}

/// A switch.
pub fn switch_item(switch: Switch) -> Item
    ensures { result ≡ switch_bytes switch }
{
    let mut item = Item::new();
    item.eight(switch.count);
    item.one(switch.job);
    item.four(switch.task);
    item
}

/// A job but for its name and its numbers for READ.
pub fn job_item(job: &JobRow) -> Item
    ensures { result ≡ job_front job.now }
{
    let mut item = Item::new();
    item.four(job.dict);
    item.two(job.segments);
    item.two(job.rows);
    item.eight(job.limit);
    item.eight(job.made);
    item.four(job.next_task);
    item
}

/// A task's row.
pub fn row_item(row: TaskRow) -> Item
    ensures { result ≡ task_row_bytes row }
{
    let mut item = Item::new();
    item.one(row.job);
    item.four(row.number);
    item.one(row.slot);
    item.one(row.parent);
    item.two(row.critical);
    item.state(row.state);
    item.two(row.segment);
    item.place(row.place);
    item
}
