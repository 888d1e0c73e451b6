//! The lines of values, of endings and of a halt.

ghost use Rattle.std.specs.Prelude.{◌≡◌, ◌≤◌, ◌+◌, ◌++◌, length, codes, decimal};
ghost use Rattle.b67_model.specs.Lines.{ending_name, task_name, value_text};
ghost use Rattle.b67_session_lines.specs.Stops.{halted_line};

use crate::names::ending_name;
use b67_io::Line;
use b67_word::Ending;
use itoa::Buffer;

/// A line of a text that is short enough.
pub fn line_of(text: &str) -> Line
    requires { length text.now ≤ 192 }
    ensures { result ≡ text.now }
{
    let mut line = Line::new();
    let _ = line.text(text);
    line
}

/// Appends a text that fits.
pub fn with_text(mut line: Line, text: &str) -> Line
    requires { length line + length text.now ≤ 192 }
    ensures text { result ≡ line ++ text.now }
    ensures length { length result ≡ length line + length text.now }
{
    let _ = line.text(text);
    line
}

/// Appends a number, of at most 20 digits.
pub fn with_number(line: Line, n: u64) -> Line
    requires { length line ≤ 172 }
    ensures text { result ≡ line ++ decimal n }
    ensures short { length result ≤ length line + 20 }
{
    let mut buffer = Buffer::new();
    with_text(line, buffer.format(n))
}

// The front of a line of a task.
fn task_line(job: u8, task: u32) -> Line
    ensures text { result ≡ task_name job task }
    ensures short { length result ≤ 41 }
{
    let line = with_text(with_number(Line::new(), u64::from(job)), ".");
    with_number(line, u64::from(task))
}

/// The line of a value that a task of a job prints.
pub fn value_line(job: u8, task: u32, value: i64) -> Line
    ensures { result ≡ task_name job task ++ value_text value }
{
    let mut buffer = Buffer::new();
    with_text(with_text(task_line(job, task), " "), buffer.format(value))
}

/// The line of how a task of a job ended.
pub fn ending_line(job: u8, task: u32, ending: Ending) -> Line
    ensures { result ≡ task_name job task ++ codes " " ++ ending_name ending }
{
    with_text(with_text(task_line(job, task), " "), ending_name(ending))
}

/// The line of a halt at a count of operators.
pub fn halted_line(count: u64) -> Line
    ensures { result ≡ halted_line count }
{
    with_number(line_of("HALTED "), count)
}
