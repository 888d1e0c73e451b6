//! READ.

ghost use Rattle.b67_model.specs.Words as words;
ghost use Rattle.std.specs.Prelude.{◌≡◌, ◌<◌, ◌^◌, List, length, Some, slice_get};
ghost use Rattle.b67_word.specs.Tagged.{word};
ghost use Rattle.b67_model.specs.Intrinsics.{read_from};
ghost use Rattle.b67_layout.specs.Rows.{JobShows};
ghost use Rattle.b67_layout.specs.Meets.{ForEach};
ghost use Rattle.b67_task.specs.Tables.{job_row};
ghost use Rattle.b67_mcp.specs.Printed.{IsCall};
ghost use Rattle.b67_mcp.specs.Reads.{left_in, AreOperands, ReadSome, ReadMeets};
ghost use Rattle.b67_model.specs.declared.intrinsics.TheConstants.{READ};
ghost use Rattle.b67_task.specs.declared.tables.JobRow.{JobRow};
ghost use Rattle.b67_mcp.specs.Answers.{AnswerMeets, Takes};
ghost use Rattle.b67_mcp.specs.Called.{AreCountable, CallsSome, ChangesStack};
ghost use Rattle.b67_mcp.specs.Running.{ForCalls, Keeps};

use crate::call::answer_call;
use crate::running::{next_place, running_row};
use b67_entry::is_critical;
use b67_exec_cells::count_cells;
use b67_stack::Cpu;
use b67_task::{JobRow, Machine, Tasks};
use b67_word::{Fault, Word};

/// Takes the next of the numbers that are left to read, as an operand; #800000000000 where none is left.
fn next_number(job: &mut JobRow) -> Word
    requires operands { AreOperands (left_in job.old) }
    requires few { length job.old.numbers < 2 ^ 32 }
    ensures word { result ≡ word 0 (read_from (left_in job.old)).0 }
    ensures left { left_in job.new ≡ (read_from (left_in job.old)).1 }
    ensures same { job.new ≡ record job.old { next_number = job.new.next_number } }
{
    let numbers = job.numbers.as_slice();
    let next = job.next_number as usize;
    if next >= numbers.len() {
        return Word::of(0, 1 << 47);
    }
    let number = numbers[next];
    job.next_number += 1;
    match Word::operand(number) {
        Some(w) => w,
        None => unreachable!(),
    }
}

/// What a call of READ on the running stack answers, with its job's row: the next number as an operand, or
/// #800000000000 after the last. INVALID OPERAND where it has an argument, CRITICAL BLOCK where a live task depends on
/// the call; no number is taken then. Core isn't changed: the call is cut and answers afterwards.
pub fn read_number(cpu: &Cpu, job: &mut JobRow) -> Result<Word, Fault>
    requires call { ReadSome cpu.now job.old }
    requires few { length job.old.numbers < 2 ^ 32 }
    ensures row { ForEach cpu.now (λ x plan s m t. (reference : words.Word) (arguments : List words.Word) → IsCall t reference arguments
        → JobShows plan m (job_row job.old) → ReadMeets plan m t arguments job.old job.new result) }
{
    if count_cells(cpu) != 1 {
        return Err(Fault::InvalidOperand);
    }
    if is_critical(cpu) {
        return Err(Fault::CriticalBlock);
    }
    Ok(next_number(job))
}

/// What READ answers for the job of a row, whose next number is taken.
fn number_at(cpu: &Cpu, rows: &mut [JobRow], at: usize) -> Result<Word, Fault>
    requires { (row : JobRow) × (slice_get rows.old at ≡ Some row) × ReadSome cpu.now row × (length row.numbers < 2 ^ 32) }
    ensures { (row : JobRow) → slice_get rows.old at ≡ Some row → Takes cpu.now rows.old rows.new at row result }
{
    read_number(cpu, &mut rows[at])
}

/// As `number_at`, by the tables.
fn take_number(cpu: &Cpu, tasks: &mut Tasks, at: usize) -> Result<Word, Fault>
    requires { (row : JobRow) × (slice_get tasks.old.jobs at ≡ Some row) × ReadSome cpu.now row × (length row.numbers < 2 ^ 32) }
    ensures takes { (row : JobRow) → slice_get tasks.old.jobs at ≡ Some row → Takes cpu.now tasks.old.jobs tasks.new.jobs at row result }
    ensures rest { tasks.new ≡ record tasks.old { jobs = tasks.new.jobs } }
{
    number_at(cpu, tasks.jobs.as_mut_slice(), at)
}

/// READ: the call is cut and answers with the job's next number. Its fault changes nothing.
#[inline(always)]
pub(crate) fn read(machine: &mut Machine) -> Result<(), Fault>
    requires calls { CallsSome machine.old READ }
    requires countable { AreCountable machine.old.tasks.jobs }
    ensures row { ForCalls machine.old READ (λ x told plan s m t. AnswerMeets x told plan s m t result machine.old machine.new) }
    ensures kept { Keeps machine.old machine.new }
    ensures changed { ChangesStack machine.old machine.new }
    ensures sectors { machine.new.sectors ≡ machine.old.sectors }
{
    let next = next_place(machine);
    let at = running_row(machine).job as usize - 1;
    let number = take_number(&machine.cpu, &mut machine.tasks, at)?;
    answer_call(&mut machine.cpu, number, next);
    Ok(())
}
