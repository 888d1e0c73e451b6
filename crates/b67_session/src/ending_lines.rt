//! The lines of endings.

ghost use Rattle.std.specs.Prelude.{◌≤◌, length, OnOk, OnErr};
ghost use Rattle.b67_io.specs.Causes.{HasCause};
ghost use Rattle.b67_session_lines.specs.Parts.{TookRest, TookMore};
ghost use Rattle.b67_session.specs.Texts.{endings_text};

use b67_io::Sink;
use b67_session_lines::{ending_line, put_rest};
use b67_word::{Ending, Failed};

/// Prints what isn't printed yet of the lines of how tasks of a job ended. `printed` counts how many first bytes of them are
/// printed; it is raised by those that are taken.
pub fn put_endings<K: Sink>(
    paper: &mut K,
    job: u8,
    ended: &[(u32, Ending)],
    printed: &mut u64,
) -> Result<(), Failed>
    requires { length ended.now ≤ 30 }
    ensures whole { OnOk result (TookRest K.taken paper.old paper.new (endings_text job ended.now) printed.old) }
    ensures part { OnErr result (TookMore K.taken paper.old paper.new (endings_text job ended.now) printed.old printed.new) }
    ensures cause { HasCause K.faults paper.old paper.new result }
{
    let mut start = 0u64;
    for one in ended {
        let (number, ending) = *one;
        let line = ending_line(job, number, ending);
        put_rest(paper, &line, start, printed)?;
        start += line.len() as u64 + 1;
    }
    Ok(())
}
