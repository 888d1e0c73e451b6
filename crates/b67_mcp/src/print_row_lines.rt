//! The lines of a row, of at most ten values each.

ghost use Rattle.std.specs.Prelude.{◌≡◌, ◌+◌, ◌*◌, ◌<◌, ◌≤◌, ◌^◌, ℕ, ℤ, List, ◌∷◌, ◌++◌, length, nat_abs, Some, OnOk, OnErr};
ghost use Rattle.b67_io.specs.Causes.{HasCause};
ghost use Rattle.b67_session_lines.specs.Parts.{TookRest, TookMore};
ghost use Rattle.b67_model.specs.Lines.{task_name, value_text, line_text};
ghost use Rattle.b67_model.specs.Steps.{Values};
ghost use Rattle.b67_mcp.specs.Texts.{values_of, still, FitsLine, IsPrinting};

use crate::print_row_values::value_in;
use b67_io::{Line, Sink};
use b67_session_lines::{put_rest, with_number, with_text};
use b67_word::{Failed, Word};

/// A line that has begun, how many values more it takes, and how many bytes the lines before it have.
#[derive(Drop)]
struct Begun {
    line: Line,
    room: u8,
    start: u64,
}

/// The front of a line of a task.
fn name_line(job: u8, task: u32) -> Line
    ensures text { result ≡ task_name job task }
    ensures short { length result ≤ 41 }
{
    let line = with_text(with_number(Line::new(), u64::from(job)), ".");
    with_number(line, u64::from(task))
}

/// Appends a value of at most twelve digits.
fn add_value(line: &mut Line, value: i64)
    requires small { nat_abs value < 2 ^ 39 }
    requires room { length line.old + 14 ≤ 192 }
    ensures text { line.new ≡ line.old ++ value_text value }
    ensures short { length line.new ≤ length line.old + 14 }
{
    let _ = line.text(" ");
    let _ = line.number(value);
}

/// Adds a value to a line that has begun; where that takes no more, what isn't printed yet of it is printed and another one
/// begins.
fn add<K: Sink>(
    begun: &mut Begun,
    job: u8,
    task: u32,
    value: i64,
    printed: &mut u64,
    paper: &mut K,
) -> Result<(), Failed>
    requires small { nat_abs value < 2 ^ 39 }
    requires short { FitsLine begun.old.line begun.old.room }
    requires start { begun.old.start < 2 ^ 61 }
    ensures adds { OnOk result ((before : List ℕ) (vs : List ℤ) → length before ≡ begun.old.start → begun.old.start ≤ printed.old
        → IsPrinting K.taken paper.old paper.new (before ++ still (task_name job task) begun.old.line begun.old.room (value ∷ vs)) printed.old printed.new begun.new.start (still (task_name job task) begun.new.line begun.new.room vs)) }
    ensures part { OnErr result ((before : List ℕ) (vs : List ℤ) → length before ≡ begun.old.start → begun.old.start ≤ printed.old
        → TookMore K.taken paper.old paper.new (before ++ still (task_name job task) begun.old.line begun.old.room (value ∷ vs)) printed.old printed.new) }
    ensures short { OnOk result (FitsLine begun.new.line begun.new.room) }
    ensures start { OnOk result (begun.new.start ≤ begun.old.start + 182) }
    ensures cause { HasCause K.faults paper.old paper.new result }
{
    if begun.room > 0 {
        add_value(&mut begun.line, value);
        begun.room -= 1;
        return Ok(());
    }
    put_rest(paper, &begun.line, begun.start, printed)?;
    begun.start += begun.line.len() as u64 + 1;
    begun.line = name_line(job, task);
    add_value(&mut begun.line, value);
    begun.room = 9;
    Ok(())
}

/// Prints what isn't printed yet of the lines of a row that a task prints. `printed` counts how many first bytes of them are
/// printed; it is raised by those that are taken.
pub fn say_row<K: Sink>(
    row: &[Word],
    job: u8,
    task: u32,
    printed: &mut u64,
    paper: &mut K,
) -> Result<(), Failed>
    requires row { (values : List ℤ) × (values_of row.now ≡ Some values) }
    requires short { length row.now < 2 ^ 32 }
    ensures whole { OnOk result ((values : List ℤ) → values_of row.now ≡ Some values → TookRest K.taken paper.old paper.new (line_text job (task, Values values)) printed.old) }
    ensures part { OnErr result ((values : List ℤ) → values_of row.now ≡ Some values → TookMore K.taken paper.old paper.new (line_text job (task, Values values)) printed.old printed.new) }
    ensures cause { HasCause K.faults paper.old paper.new result }
{
    let mut begun = Begun {
        line: name_line(job, task),
        room: 10,
        start: 0,
    };
    for w in row {
        add(&mut begun, job, task, value_in(*w), printed, paper)?;
    }
    put_rest(paper, &begun.line, begun.start, printed)
}
