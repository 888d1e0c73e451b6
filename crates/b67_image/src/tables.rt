//! Switches, jobs and task rows at the front of bytes.

ghost use Rattle.std.specs.Prelude.{◌≡◌, ◌≤◌, ◌<◌, ◌+◌, nat_abs, IfOk};
ghost use Rattle.b67_image.specs.Giving.{GivesItem, read_many};
ghost use Rattle.b67_image.specs.Reading.{read_count, read_counted, read_switch, read_switches, read_name, read_signed, read_job, read_jobs, state_by_kind, read_state, read_row, read_rows};
ghost use Rattle.b67_ctl.specs.declared.map.TheConstants.{SLOTS};
ghost use Rattle.b67_model.specs.declared.limits.TheConstants.{GREATEST};

use crate::flaw::Flaw;
use crate::numbers::{read_eight, read_four, read_one, read_place, read_two};
use arrayvec::ArrayVec;
use b67_card::name;
use b67_ctl::SLOTS;
use b67_model::{
    GREATEST, MOST_JOBS, MOST_LIMIT, MOST_MADE, MOST_NUMBER, MOST_PARTS, MOST_SWITCHES,
};
use b67_model_text::{Name, Switch, Switches};
use b67_task::{JobRow, JobRows, MOST_ROWS, TaskRow, TaskState};
use b67_word::Numbers;
use std::alloc::Global;

/// The number of items that follow, if it is within these bounds.
#[tactic(auto, unfolding(crate::specs::Reading::read_count))]
pub fn read_count(low: u32, high: u32, bytes: &[u8]) -> Result<(u32, &[u8]), Flaw>
    ensures row { GivesItem (λ x. (x.0, x.1.now)) result (read_count low high bytes.now) }
    ensures inside { IfOk result (λ x. x.0 ≤ high) }
{
    let (count, rest) = read_four(bytes)?;
    if count < low || count > high {
        return Err(Flaw::Bad);
    }
    Ok((count, rest))
}

/// A switch, and what lies behind.
#[tactic(auto, unfolding(crate::specs::Reading::read_switch))]
fn read_switch(bytes: &[u8]) -> Result<(Switch, &[u8]), Flaw>
    ensures { GivesItem (λ x. (x.0, x.1.now)) result (read_switch bytes.now) }
{
    let (count, rest) = read_eight(bytes)?;
    if count > MOST_MADE {
        return Err(Flaw::Bad);
    }
    let (job, rest) = read_one(rest)?;
    if job < 1 || job > MOST_JOBS {
        return Err(Flaw::Bad);
    }
    let (task, rest) = read_four(rest)?;
    if task < 1 || task > MOST_NUMBER {
        return Err(Flaw::Bad);
    }
    Ok((Switch { count, job, task }, rest))
}

/// So many switches, and what lies behind.
fn many_switches(alloc: Global, count: u32, bytes: &[u8]) -> Result<(Switches, &[u8]), Flaw>
    ensures { GivesItem (λ x. (x.0, x.1.now)) result (read_many read_switch count bytes.now) }
{
    let mut switches = Switches::new(alloc);
    let mut rest = bytes;
    'each: for _ in 0..count {
        let (switch, after) = read_switch(rest)?;
        switches.push(switch)?;
        rest = after;
    }
    Ok((switches, rest))
}

/// The counted switches, and what lies behind.
#[tactic(auto, unfolding(crate::specs::Reading::read_switches, crate::specs::Reading::read_counted))]
pub fn read_switches(alloc: Global, bytes: &[u8]) -> Result<(Switches, &[u8]), Flaw>
    ensures { GivesItem (λ x. (x.0, x.1.now)) result (read_switches bytes.now) }
{
    let (count, rest) = read_count(0, MOST_SWITCHES, bytes)?;
    many_switches(alloc, count, rest)
}

/// A name, and what lies behind.
#[tactic(auto, unfolding(crate::specs::Reading::read_name))]
fn read_name(bytes: &[u8]) -> Result<(Name, &[u8]), Flaw>
    ensures { GivesItem (λ x. (x.0, x.1.now)) result (read_name bytes.now) }
{
    let (length, rest) = read_one(bytes)?;
    let length = usize::from(length);
    if rest.len() < length {
        return Err(Flaw::Bad);
    }
    match name(&rest[..length]) {
        Some(name) => Ok((name, &rest[length..])),
        None => Err(Flaw::Bad),
    }
}

/// A number of 64 bits, if it is in READ's range.
#[tactic(auto, unfolding(crate::specs::Reading::read_signed))]
fn read_signed(bytes: &[u8]) -> Result<(i64, &[u8]), Flaw>
    ensures row { GivesItem (λ x. (x.0, x.1.now)) result (read_signed bytes.now) }
    ensures small { IfOk result (λ x. nat_abs x.0 ≤ GREATEST) }
{
    let (number, rest) = read_eight(bytes)?;
    let number = number.cast_signed();
    if number.unsigned_abs() > GREATEST {
        return Err(Flaw::Bad);
    }
    Ok((number, rest))
}

/// So many numbers for READ, and what lies behind.
fn many_numbers(alloc: Global, count: u32, bytes: &[u8]) -> Result<(Numbers, &[u8]), Flaw>
    ensures { GivesItem (λ x. (x.0, x.1.now)) result (read_many read_signed count bytes.now) }
{
    let mut numbers = Numbers::new(alloc);
    let mut rest = bytes;
    'each: for _ in 0..count {
        let (number, after) = read_signed(rest)?;
        numbers.push(number)?;
        rest = after;
    }
    Ok((numbers, rest))
}

/// The counted numbers for READ, and what lies behind.
#[tactic(auto, unfolding(crate::specs::Reading::read_counted))]
fn numbers_at(alloc: Global, bytes: &[u8]) -> Result<(Numbers, &[u8]), Flaw>
    ensures { GivesItem (λ x. (x.0, x.1.now)) result (read_counted 0 4294967295 read_signed bytes.now) }
{
    let (count, rest) = read_count(0, u32::MAX, bytes)?;
    many_numbers(alloc, count, rest)
}

/// A job, and what lies behind.
#[tactic(auto, unfolding(crate::specs::Reading::read_job))]
fn read_job(alloc: Global, bytes: &[u8]) -> Result<(JobRow, &[u8]), Flaw>
    ensures { GivesItem (λ x. (x.0, x.1.now)) result (read_job bytes.now) }
{
    let (name, rest) = match read_name(bytes) {
        Ok(found) => found,
        Err(e) => return Err(e),
    };
    let (dict, rest) = read_four(rest)?;
    let (segments, rest) = read_two(rest)?;
    let (rows, rest) = read_two(rest)?;
    if u32::from(segments) + u32::from(rows) > MOST_PARTS as u32 {
        return Err(Flaw::Bad);
    }
    let (limit, rest) = read_eight(rest)?;
    if limit < 1 || limit > MOST_LIMIT {
        return Err(Flaw::Bad);
    }
    let (made, rest) = read_eight(rest)?;
    let (next_task, rest) = read_four(rest)?;
    let (numbers, rest) = match numbers_at(alloc, rest) {
        Ok(found) => found,
        Err(e) => return Err(e),
    };
    let (next_number, rest) = read_four(rest)?;
    let job = JobRow {
        name,
        dict,
        segments,
        rows,
        limit,
        made,
        next_task,
        numbers,
        next_number,
    };
    Ok((job, rest))
}

/// So many jobs, and what lies behind.
fn many_jobs(alloc: Global, count: u32, bytes: &[u8]) -> Result<(JobRows, &[u8]), Flaw>
    ensures { GivesItem (λ x. (x.0, x.1.now)) result (read_many read_job count bytes.now) }
{
    let mut jobs = JobRows::new(alloc);
    let mut rest = bytes;
    'each: for _ in 0..count {
        let (job, after) = match read_job(alloc, rest) {
            Ok(found) => found,
            Err(e) => return Err(e),
        };
        jobs.push(job)?;
        rest = after;
    }
    Ok((jobs, rest))
}

/// The counted jobs, and what lies behind.
#[tactic(auto, unfolding(crate::specs::Reading::read_jobs, crate::specs::Reading::read_counted))]
pub fn read_jobs(alloc: Global, bytes: &[u8]) -> Result<(JobRows, &[u8]), Flaw>
    ensures { GivesItem (λ x. (x.0, x.1.now)) result (read_jobs bytes.now) }
{
    let (count, rest) = read_count(0, MOST_JOBS as u32, bytes)?;
    many_jobs(alloc, count, rest)
}

/// The state of a kind, a number and an offset.
fn state_by_kind(kind: u8, number: u32, offset: u16) -> Option<TaskState>
    ensures { result ≡ state_by_kind kind number offset }
{
    match kind {
        0 if number == 0 && offset == 0 => Some(TaskState::Ready),
        1 if offset == 0 => Some(TaskState::Awaits(number)),
        2 => Some(TaskState::WaitsAt {
            mark: number,
            offset,
        }),
        _ => None,
    }
}

/// Whether a task may go on, and what lies behind.
#[tactic(auto, unfolding(crate::specs::Reading::read_state))]
fn read_state(bytes: &[u8]) -> Result<(TaskState, &[u8]), Flaw>
    ensures { GivesItem (λ x. (x.0, x.1.now)) result (read_state bytes.now) }
{
    let (kind, rest) = read_one(bytes)?;
    let (number, rest) = read_four(rest)?;
    let (offset, rest) = read_two(rest)?;
    match state_by_kind(kind, number, offset) {
        Some(state) => Ok((state, rest)),
        None => Err(Flaw::Bad),
    }
}

/// A task's row, and what lies behind.
#[tactic(auto, unfolding(crate::specs::Reading::read_row))]
fn read_row(bytes: &[u8]) -> Result<(TaskRow, &[u8]), Flaw>
    ensures { GivesItem (λ x. (x.0, x.1.now)) result (read_row bytes.now) }
{
    let (job, rest) = read_one(bytes)?;
    let (number, rest) = read_four(rest)?;
    let (slot, rest) = read_one(rest)?;
    let (parent, rest) = read_one(rest)?;
    let (critical, rest) = read_two(rest)?;
    let (state, rest) = read_state(rest)?;
    let (segment, rest) = read_two(rest)?;
    let (place, rest) = read_place(rest)?;
    let row = TaskRow {
        job,
        number,
        slot,
        parent,
        critical,
        state,
        segment,
        place,
    };
    Ok((row, rest))
}

/// So many rows of tasks, and what lies behind.
fn many_rows(count: u32, bytes: &[u8]) -> Result<(ArrayVec<TaskRow, MOST_ROWS>, &[u8]), Flaw>
    requires { count ≤ SLOTS }
    ensures { GivesItem (λ x. (x.0.items, x.1.now)) result (read_many read_row count bytes.now) }
{
    let mut rows = ArrayVec::<TaskRow, MOST_ROWS>::new();
    let mut rest = bytes;
    'each: for _ in 0..count {
        let (row, after) = read_row(rest)?;
        rows.push(row);
        rest = after;
    }
    Ok((rows, rest))
}

/// The counted rows of tasks, and what lies behind.
#[tactic(auto, unfolding(crate::specs::Reading::read_rows, crate::specs::Reading::read_counted))]
pub fn read_rows(bytes: &[u8]) -> Result<(ArrayVec<TaskRow, MOST_ROWS>, &[u8]), Flaw>
    ensures { GivesItem (λ x. (x.0.items, x.1.now)) result (read_rows bytes.now) }
{
    let (count, rest) = read_count(0, SLOTS as u32, bytes)?;
    many_rows(count, rest)
}
