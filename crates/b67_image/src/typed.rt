//! What the types of a machine's numbers tell of its image.

ghost use Rattle.std.specs.Prelude.{◌<◌, ◌^◌};
ghost use Rattle.std.specs.List.{AllByRecursion};
ghost use Rattle.b67_word.specs.Tagged.{IsWord};
ghost use Rattle.b67_backing.specs.Links.{links_in};
ghost use Rattle.b67_image.specs.Parts.{parts_of};
ghost use Rattle.b67_image.specs.Within.{IsState, IsRowInRange, IsFour, IsTwo};
ghost use Rattle.b67_image.specs.Typed.{IsTypedNumber, IsTypedSwitch, IsTypedJob, AreTypedRegs, AreTyped};

use b67_backing::Sectors;
use b67_core::Core;
use b67_ctl::Regs;
use b67_model_text::Switch;
use b67_task::{JobRow, Machine, TaskRow, TaskState};

fn state_is_typed(state: TaskState)
    ensures { IsState state }
{
    match state {
        TaskState::Ready => {}
        TaskState::Awaits(_number) => {}
        TaskState::WaitsAt {
            mark: _mark,
            offset: _offset,
        } => {}
    }
}

fn row_is_typed(row: TaskRow)
    ensures { IsRowInRange row }
{
    state_is_typed(row.state)
}

fn rows_are_typed(rows: &[TaskRow])
    ensures { AllByRecursion IsRowInRange rows.now }
{
    let mut left = rows;
    'each: while let [row, more @ ..] = left {
        row_is_typed(*row);
        left = more;
    }
}

fn switches_are_typed(switches: &[Switch])
    ensures { AllByRecursion IsTypedSwitch switches.now }
{
    let mut left = switches;
    'each: while let [switch, more @ ..] = left {
        switch_is_typed(*switch);
        left = more;
    }
}

fn switch_is_typed(switch: Switch)
    ensures { IsTypedSwitch switch }
{
    let _ = switch;
}

fn number_is_typed(number: i64)
    ensures { IsTypedNumber number }
{
    let _ = number;
}

fn numbers_are_typed(numbers: &[i64])
    ensures { AllByRecursion IsTypedNumber numbers.now }
{
    let mut left = numbers;
    'each: while let [number, more @ ..] = left {
        number_is_typed(*number);
        left = more;
    }
}

fn job_numbers_are_typed(
    dict: u32,
    segments: u16,
    rows: u16,
    limit: u64,
    made: u64,
    next_task: u32,
    next_number: u32,
)
    ensures dict { dict < 2 ^ 32 }
    ensures segments { segments < 2 ^ 16 }
    ensures rows { rows < 2 ^ 16 }
    ensures limit { limit < 2 ^ 64 }
    ensures made { made < 2 ^ 64 }
    ensures next_task { next_task < 2 ^ 32 }
    ensures next_number { next_number < 2 ^ 32 }
{
    let _ = (dict, segments, rows, limit, made, next_task, next_number);
}

fn job_is_typed(job: &JobRow)
    ensures { IsTypedJob job.now }
{
    numbers_are_typed(job.numbers.as_slice());
    job_numbers_are_typed(
        job.dict,
        job.segments,
        job.rows,
        job.limit,
        job.made,
        job.next_task,
        job.next_number,
    )
}

fn jobs_are_typed(jobs: &[JobRow])
    ensures { AllByRecursion IsTypedJob jobs.now }
{
    let mut left = jobs;
    'each: while let [job, more @ ..] = left {
        job_is_typed(job);
        left = more;
    }
}

fn addresses_are_typed(addresses: &[u32])
    ensures { AllByRecursion IsFour addresses.now }
{
    let mut left = addresses;
    'each: while let [address, more @ ..] = left {
        let _ = *address;
        left = more;
    }
}

fn places_are_typed(places: &[u16])
    ensures { AllByRecursion IsTwo places.now }
{
    let mut left = places;
    'each: while let [place, more @ ..] = left {
        let _ = *place;
        left = more;
    }
}

fn regs_are_typed(regs: Regs)
    ensures { AreTypedRegs regs }
{
    let _ = regs;
}

fn core_is_typed(core: &Core)
    ensures { AllByRecursion IsWord core.now }
{
    let mut at = core.size();
    'words: while 0 < at {
        at -= 1;
        let _ = core.get(at);
    }
}

fn links_are_typed(sectors: &Sectors)
    ensures { AllByRecursion IsFour (links_in sectors.now) }
{
    let mut n = sectors.count();
    'sectors: while 0 < n {
        let _ = sectors.link(n);
        n -= 1;
    }
}

fn areas_are_typed(size: u32, low: u32)
    ensures size { size < 2 ^ 32 }
    ensures low { low < 2 ^ 32 }
{
    let _ = (size, low);
}

fn counts_are_typed(
    quantum: u32,
    made: u64,
    turn: u32,
    last_job: u8,
    last_number: u32,
    running: u8,
    next_switch: u32,
)
    ensures quantum { quantum < 2 ^ 32 }
    ensures made { made < 2 ^ 64 }
    ensures turn { turn < 2 ^ 32 }
    ensures last_job { last_job < 2 ^ 8 }
    ensures last_number { last_number < 2 ^ 32 }
    ensures running { running < 2 ^ 8 }
    ensures next_switch { next_switch < 2 ^ 32 }
{
    let _ = (
        quantum,
        made,
        turn,
        last_job,
        last_number,
        running,
        next_switch,
    );
}

/// Looks at each number of a machine, which its type bounds: so no two machines have one image. Changes nothing.
pub fn machine_is_typed(machine: &Machine)
    ensures { AreTyped (parts_of machine.now) }
{
    core_is_typed(&machine.cpu.core);
    regs_are_typed(machine.cpu.regs);
    addresses_are_typed(&machine.cpu.display);
    places_are_typed(&machine.cpu.critical);
    areas_are_typed(machine.areas.size, machine.areas.low);
    links_are_typed(&machine.sectors);
    counts_are_typed(
        machine.tasks.quantum,
        machine.tasks.made,
        machine.tasks.turn,
        machine.tasks.last_job,
        machine.tasks.last_number,
        machine.tasks.running,
        machine.tasks.next_switch,
    );
    switches_are_typed(machine.tasks.switches.as_slice());
    jobs_are_typed(machine.tasks.jobs.as_slice());
    rows_are_typed(machine.tasks.rows.as_slice())
}
