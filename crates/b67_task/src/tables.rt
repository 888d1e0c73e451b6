//! The tables of tasks and jobs, and the whole machine.

ghost use Rattle.std.specs.Prelude.{◌≡◌, ◌≤◌, ◌-◌, [], ◌∷◌, ◌++◌, OnOk, OnErr, Some, slice_get};
ghost use Rattle.std.specs.Borrow.{sem};
ghost use Rattle.b67_task.specs.Lending.{LendsJobs};
ghost use Rattle.b67_task.specs.declared.tables.JobRow.{JobRow};

use arrayvec::ArrayVec;
use b67_area::Areas;
use b67_backing::Sectors;
use b67_model::{MOST_ENDINGS, MOST_STACKS, MOST_TASKS};
use b67_model_text::{Name, Switches};
use b67_stack::Cpu;
use b67_word::{Numbers, Place};
use std::alloc::{AllocError, Global};
use std::marker::Model;

/// Whether a task may go on: it is ready, or it waits for the end of the task of a number, or at a cell: that of an
/// offset in the activation record whose mark has a core address.
#[derive(Clone, Copy, Debug, PartialEq, Eq)]
pub enum TaskState {
    Ready,
    Awaits(u32),
    WaitsAt { mark: u32, offset: u16 },
}

/// The slot in a first task's row as its parent's.
pub const NO_PARENT: u8 = 255;

/// A live task: its job and number, from 1 on; the slot of its stack; its parent's slot, [`NO_PARENT`] for a first task; the
/// displacement of the mark that its parent may not leave; where it goes on unless its registers are in use.
#[derive(Clone, Copy, Debug, PartialEq, Eq)]
pub struct TaskRow {
    pub job: u8,
    pub number: u32,
    pub slot: u8,
    pub parent: u8,
    pub critical: u16,
    pub state: TaskState,
    pub segment: u16,
    pub place: Place,
}

impl Default for TaskRow {
    /// A row of no task.
    fn default() -> TaskRow {
        TaskRow {
            job: 0,
            number: 0,
            slot: 0,
            parent: 0,
            critical: 0,
            state: TaskState::Ready,
            segment: 0,
            place: Place {
                word: 0,
                syllable: 0,
            },
        }
    }
}

/// A job: its name; the core address of its dictionary, and how many segments and data rows that has; how many operators
/// it may make and has made; the next task's number; its numbers for READ, and the first of them that is left.
#[derive(Drop)]
pub struct JobRow {
    pub name: Name,
    pub dict: u32,
    pub segments: u16,
    pub rows: u16,
    pub limit: u64,
    pub made: u64,
    pub next_task: u32,
    pub numbers: Numbers,
    pub next_number: u32,
}

/// A list of jobs.
#[derive(Drop)]
pub struct JobRows {
    items: Vec<JobRow>,
}

impl Model for JobRows {
    ghost use Rattle.std.specs.Prelude.{List};
    ghost use Rattle.b67_task.specs.declared.tables.JobRow.{JobRow};

    ghost Value = { List JobRow };

    ghost view = { λ c. c.items.items };
}

impl JobRows {
    /// The empty list.
    pub fn new(alloc: Global) -> Self
        ensures { result ≡ [] }
    {
        JobRows {
            items: Vec::new(alloc),
        }
    }

    /// Appends a job. A refusal changes nothing.
    pub fn push(&mut self, x: JobRow) -> Result<(), AllocError>
        ensures ok { OnOk result (self.new ≡ self.old ++ x ∷ []) }
        ensures err { OnErr result (self.new ≡ self.old) }
    {
        self.items.push(x)?;
        Ok(())
    }

    /// The jobs, in the order of their numbers.
    pub fn as_slice(&self) -> &[JobRow]
        ensures { result.now ≡ self.now }
    {
        self.items.as_slice()
    }

    /// The jobs, to be changed in place.
    pub fn as_mut_slice(&mut self) -> &mut [JobRow]
        ensures* writes_back { sem 𝓛 (LendsJobs self.entry result) }
        ensures value { result.now ≡ self.old }
    {
        self.items.as_mut_slice()
    }
}

/// The most rows of the table of tasks: one for each stack.
pub const MOST_ROWS: usize = MOST_STACKS as usize;

/// The most tasks of a list of those of one job.
pub const MOST_LISTED: usize = MOST_TASKS as usize;

/// The most tasks of a list of those who end in one step.
pub const MOST_ENDED: usize = MOST_ENDINGS as usize;

/// The running row of tables, if no task's registers are in use.
pub const NO_ROW: u8 = 255;

/// The jobs and the live tasks; the switches and the first that is left; the operators of a turn; the count at which the
/// run stops; the operators made so far, and those of this turn; the job and the number of the task that made the last
/// one, 0 and 0 before the first; the row of the task whose registers are in use, [`NO_ROW`] for none; and how many bytes of the
/// step's text the printer has already taken.
#[derive(Drop)]
pub struct Tasks {
    pub jobs: JobRows,
    pub rows: ArrayVec<TaskRow, MOST_ROWS>,
    pub switches: Switches,
    pub next_switch: u32,
    pub quantum: u32,
    pub halt: Option<u64>,
    pub made: u64,
    pub turn: u32,
    pub last_job: u8,
    pub last_number: u32,
    pub running: u8,
    pub printed: u64,
}

impl Tasks {
    /// The number of a job's next task.
    pub fn next_number(&self, job: u8) -> u32
        requires { (r : JobRow) × (slice_get self.now.jobs (job - 1) ≡ Some r) × (1 ≤ job) }
        ensures { (r : JobRow) → slice_get self.now.jobs (job - 1) ≡ Some r → result ≡ r.next_task }
    {
        self.jobs.as_slice()[job as usize - 1].next_task
    }
}

/// The whole machine.
#[derive(Drop)]
pub struct Machine {
    pub cpu: Cpu,
    pub areas: Areas,
    pub sectors: Sectors,
    pub tasks: Tasks,
}
