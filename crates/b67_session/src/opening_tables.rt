//! The tables of tasks and jobs of a session that opens.

ghost use Rattle.std.specs.Prelude.{◌≡◌, ◌<◌, ◌≤◌, ◌^◌, OnOk, IfOk, length, map};
ghost use Rattle.std.specs.List.{AllByRecursion};
ghost use Rattle.b67_codefile.specs.Meaning.{program_of};
ghost use Rattle.b67_session.specs.Opened.{opening_plan};
ghost use Rattle.b67_session.specs.Tables.{first_row as first_row_of, first_rows as first_rows_of, opening_row as opening_row_of, opening_rows as opening_rows_of};
ghost use Rattle.b67_task.specs.Tables.{task_row, job_row, TasksShow};
ghost use Rattle.b67_session.specs.Decks.{opening_of, openings_of, session_of, given_to, jobs_given, deck_given, job_given, rows_given, given_of, JobInRange, DeckInRange, IsLoaded, IsCountable};
ghost use Rattle.b67_model.specs.declared.limits.TheConstants.{MOST_JOBS};

use crate::copies::{copied_name, copied_numbers, copied_switches};
use crate::dictionaries::dictionary_words;
use arrayvec::ArrayVec;
use b67_ctl::FIRST_DICTIONARY;
use b67_load::Admitted;
use b67_model_text::{Deck, Job};
use b67_task::{JobRow, JobRows, MOST_ROWS, NO_PARENT, NO_ROW, TaskRow, TaskState, Tasks};
use b67_word::Place;
use std::alloc::{AllocError, Global};

/// The row of a job that hasn't begun, whose dictionary begins at an address.
fn opening_row(
    alloc: Global,
    dict: u32,
    job: &Job,
    program: &Admitted,
) -> Result<JobRow, AllocError>
    requires range { JobInRange job.now }
    ensures row { IfOk result (λ r. job_row r ≡ opening_row_of dict (opening_of job.now (program_of program.now))) }
    ensures given { IfOk result (λ r. job_given r ≡ given_to job.now) }
    ensures countable { IfOk result IsCountable }
    ensures loaded { IsLoaded program.now }
{
    let file = program.file();
    let numbers = copied_numbers(alloc, &job.numbers)?;
    Ok(JobRow {
        name: copied_name(&job.name),
        dict,
        segments: file.segments.as_slice().len() as u16,
        rows: file.rows.as_slice().len() as u16,
        limit: job.limit,
        made: 0,
        next_task: 2,
        numbers,
        next_number: 0,
    })
}

/// The rows of jobs that haven't begun, each with its program.
fn opening_rows(alloc: Global, jobs: &[Job], programs: &[Admitted]) -> Result<JobRows, AllocError>
    requires range { AllByRecursion JobInRange jobs.now }
    requires few { length jobs.now ≤ MOST_JOBS }
    requires each { length programs.now ≡ length jobs.now }
    ensures rows { IfOk result (λ rows. map job_row rows ≡ opening_rows_of FIRST_DICTIONARY (openings_of jobs.now (map program_of programs.now))) }
    ensures given { IfOk result (λ rows. rows_given rows ≡ jobs_given jobs.now) }
    ensures countable { IfOk result (AllByRecursion IsCountable) }
    ensures loaded { OnOk result (AllByRecursion IsLoaded programs.now) }
{
    let mut rows = JobRows::new(alloc);
    let mut at = FIRST_DICTIONARY;
    'jobs: for k in 0..jobs.len() {
        let row = opening_row(alloc, at, &jobs[k], &programs[k])?;
        rows.push(row)?;
        at += dictionary_words(&programs[k]);
    }
    Ok(rows)
}

/// The row of a job's first task, which is ready at the first operator of the program.
fn first_row(slot: u8) -> TaskRow
    requires { slot ≤ MOST_JOBS }
    ensures { task_row result ≡ first_row_of slot }
{
    TaskRow {
        job: slot + 1,
        number: 1,
        slot,
        parent: NO_PARENT,
        critical: 0,
        state: TaskState::Ready,
        segment: 2,
        place: Place {
            word: 0,
            syllable: 0,
        },
    }
}

/// The rows of the jobs' first tasks.
fn first_rows(programs: &[Admitted]) -> ArrayVec<TaskRow, MOST_ROWS>
    requires few { length programs.now ≤ MOST_JOBS }
    ensures { map task_row result.items ≡ first_rows_of 0 (map program_of programs.now) }
{
    let mut rows = ArrayVec::new();
    'rows: for slot in 0..programs.len() as u8 {
        rows.push(first_row(slot));
    }
    rows
}

/// The tables of a deck's session that opens, with a program for each job: no operator is made and no task runs. Refused
/// where memory is refused or a job has 2 ^ 32 numbers or more.
pub fn opening_tasks(alloc: Global, deck: &Deck, programs: &[Admitted]) -> Result<Tasks, AllocError>
    requires range { DeckInRange deck.now }
    requires each { length programs.now ≡ length deck.now.jobs }
    ensures shows { IfOk result (λ t. TasksShow (opening_plan deck.now.stack (map program_of programs.now)) (session_of deck.now (map program_of programs.now)) t) }
    ensures given { IfOk result (λ t. given_of t ≡ deck_given deck.now) }
    ensures loaded { OnOk result (AllByRecursion IsLoaded programs.now) }
    ensures printed { IfOk result (λ t. t.printed ≡ 0) }
    ensures countable { IfOk result (λ t. AllByRecursion IsCountable t.jobs) }
{
    let jobs = opening_rows(alloc, deck.jobs.as_slice(), programs)?;
    let switches = copied_switches(alloc, &deck.switches)?;
    Ok(Tasks {
        jobs,
        rows: first_rows(programs),
        switches,
        next_switch: 0,
        quantum: deck.quantum,
        halt: deck.halt,
        made: 0,
        turn: 0,
        last_job: 0,
        last_number: 0,
        running: NO_ROW,
        printed: 0,
    })
}
