//! Printing a dump.

ghost use Rattle.std.specs.Prelude.{◌≡◌, ◌+◌, ◌-◌, ◌<◌, ◌≤◌, ◌^◌, ◌++◌, length, map, slice_get, Some, OnOk, OnErr};
ghost use Rattle.b67_io.specs.Line.{ended};
ghost use Rattle.b67_io.specs.Told.{Took, TookPart};
ghost use Rattle.b67_io.specs.Causes.{HasCause};
ghost use Rattle.b67_task.specs.Tables.{task_row, job_row};
ghost use Rattle.b67_layout_shown.specs.Reading.{cells_in, stack_seen};
ghost use Rattle.b67_layout_shown.specs.Shown.{rows_of};
ghost use Rattle.b67_layout_shown.specs.Machines.{sight_of};
ghost use Rattle.b67_dump.specs.Dump.{dump_text};
ghost use Rattle.b67_dump.specs.Walk.{activations_text, jobs_dump, row_dump, rows_dump, shapes_text, walk_text};
ghost use Rattle.b67_dump.specs.Landmarks.{AreLandmarks};
ghost use Rattle.b67_dump.specs.Put.{PutsText};
ghost use Rattle.b67_dump.specs.Analysed.{ForEachShown};
ghost use Rattle.b67_dump.specs.Records.{record_text};

use crate::landmarks::{Landmark, landmarks_of};
use crate::lines::{cell_line, frame_line, task_line};
use crate::order::{row_at, rows_of};
use crate::walking::{count_marks, mark_at, stops_of, top_at};
use b67_io::{Line, Sink, put_line};
use b67_layout_shown::seeing::{TaskTop, top_of, word_seen_at};
use b67_task::{JobRow, Machine, TaskRow};
use b67_word::Failed;

/// Puts a line with its end.
fn put<K: Sink>(sink: &mut K, line: &Line) -> Result<(), Failed>
    ensures { PutsText K.taken K.faults sink.old sink.new result (ended line.now) }
{
    match put_line(sink, line, 0) {
        Ok(()) => Ok(()),
        Err(_) => Err(Failed),
    }
}

/// Puts so many cells from an address up.
fn put_cells<K: Sink>(
    sink: &mut K,
    machine: &Machine,
    landmarks: &[Landmark],
    row: &JobRow,
    job: u64,
    from: u64,
    count: u64,
) -> Result<(), Failed>
    requires known { AreLandmarks (sight_of machine.now) landmarks.now }
    requires near { job < 2 ^ 63 }
    requires start { from < 2 ^ 51 }
    requires few { count < 2 ^ 51 }
    ensures { PutsText K.taken K.faults sink.old sink.new result (shapes_text (sight_of machine.now) (job_row row.now) job (cells_in machine.now.cpu.core from count)) }
{
    let mut done = 0;
    'cells: while done < count {
        put(
            sink,
            &cell_line(machine, landmarks, row, job, 2 + done, from + done),
        )?;
        done += 1;
    }
    Ok(())
}

/// Puts an activation record of a number, by its mark and its topmost word.
fn put_record<K: Sink>(
    sink: &mut K,
    machine: &Machine,
    landmarks: &[Landmark],
    row: &JobRow,
    job: u64,
    number: u64,
    mark: u64,
    top: u64,
) -> Result<(), Failed>
    requires known { AreLandmarks (sight_of machine.now) landmarks.now }
    requires near { job < 2 ^ 63 }
    requires inside { mark < 2 ^ 50 }
    requires below { top < 2 ^ 50 }
    ensures { PutsText K.taken K.faults sink.old sink.new result (record_text (sight_of machine.now) (job_row row.now) job number mark top) }
{
    put(sink, &frame_line(machine, landmarks, job, number, mark))?;
    let head = 1 + word_seen_at(&machine.cpu.core, mark).part(46, 1);
    let from = mark + head;
    put_cells(
        sink,
        machine,
        landmarks,
        row,
        job,
        from,
        (top + 1).saturating_sub(from),
    )
}

/// Puts the activation records of a task, the bottom one first.
fn put_records<K: Sink>(
    sink: &mut K,
    machine: &Machine,
    landmarks: &[Landmark],
    row: &JobRow,
    job: u64,
    top: TaskTop,
) -> Result<(), Failed>
    requires known { AreLandmarks (sight_of machine.now) landmarks.now }
    requires near { job < 2 ^ 63 }
    requires inside { top.f < 2 ^ 50 }
    requires below { top.s < 2 ^ 50 }
    ensures { PutsText K.taken K.faults sink.old sink.new result
        (activations_text (sight_of machine.now) (job_row row.now) job (stack_seen machine.now.cpu.core machine.now.cpu.regs.stack_size top.f top.s)) }
{
    let core = &machine.cpu.core;
    let count = count_marks(core, u32::from(machine.cpu.regs.stack_size), top.f);
    let found = stops_of(core, count, top.f);
    let stops = found.as_slice();
    let mut left = count;
    'records: while left > 0 {
        left -= 1;
        let last = top_at(core, stops, top.f, left, top.s);
        let mark = mark_at(core, stops, top.f, left);
        let number = u64::from(count - left);
        put_record(sink, machine, landmarks, row, job, number, mark, last)?;
    }
    Ok(())
}

/// Puts a task.
fn put_task<K: Sink>(
    sink: &mut K,
    machine: &Machine,
    landmarks: &[Landmark],
    row: &JobRow,
    job: u64,
    task: TaskRow,
) -> Result<(), Failed>
    requires known { AreLandmarks (sight_of machine.now) landmarks.now }
    requires near { job < 2 ^ 63 }
    ensures { PutsText K.taken K.faults sink.old sink.new result (row_dump (sight_of machine.now) (job_row row.now) job (task_row task)) }
{
    let top = top_of(machine, task);
    match put(sink, &task_line(machine, landmarks, row, job, task, top)) {
        Ok(()) => put_records(sink, machine, landmarks, row, job, top),
        Err(failed) => Err(failed),
    }
}

/// Puts the tasks of a job, the oldest one first.
fn put_tasks<K: Sink>(
    sink: &mut K,
    machine: &Machine,
    landmarks: &[Landmark],
    row: &JobRow,
    job: u64,
) -> Result<(), Failed>
    requires known { AreLandmarks (sight_of machine.now) landmarks.now }
    requires near { job < 2 ^ 63 }
    ensures { PutsText K.taken K.faults sink.old sink.new result
        (rows_dump (sight_of machine.now) (job_row row.now) job (rows_of (map task_row machine.now.tasks.rows.items) job)) }
{
    let chosen = rows_of(&machine.tasks.rows, job);
    let tasks = chosen.as_slice();
    let mut left = tasks.len();
    'tasks: while left > 0 {
        left -= 1;
        put_task(sink, machine, landmarks, row, job, row_at(tasks, left))?;
    }
    Ok(())
}

/// A job of a list.
fn job_at(jobs: &[JobRow], at: usize) -> &JobRow
    requires { at < length jobs.now }
    ensures { slice_get jobs.now at ≡ Some result.now }
{
    &jobs[at]
}

/// Puts the tasks of all jobs.
fn put_jobs<K: Sink>(sink: &mut K, machine: &Machine, landmarks: &[Landmark]) -> Result<(), Failed>
    requires { AreLandmarks (sight_of machine.now) landmarks.now }
    ensures { PutsText K.taken K.faults sink.old sink.new result (walk_text (sight_of machine.now)) }
{
    let jobs = machine.tasks.jobs.as_slice();
    'jobs: for at in 0..jobs.len() {
        put_tasks(sink, machine, landmarks, job_at(jobs, at), at as u64 + 1)?;
    }
    Ok(())
}

/// Prints the dump of a machine: its live tasks with their activation records, each with its cells. No memory is taken; two tables
/// take 122 kilobytes of the stack of the program. After a failure a proper beginning of it is printed. The time is that of the
/// words of the stacks: of a session, a word that names an activation record or an array finds it in at most 128 steps, and its
/// task among at most 120 rows.
pub fn analyse<K: Sink>(machine: &Machine, sink: &mut K) -> Result<(), Failed>
    ensures whole { OnOk result (ForEachShown machine.now (λ s. Took K.taken sink.old sink.new (dump_text s))) }
    ensures part { OnErr result (ForEachShown machine.now (λ s. TookPart K.taken sink.old sink.new (dump_text s))) }
    ensures cause { HasCause K.faults sink.old sink.new result }
{
    let landmarks = landmarks_of(machine);
    put_jobs(sink, machine, landmarks.as_slice())
}
