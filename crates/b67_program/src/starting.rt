//! The call that `main` is.

ghost use Rattle.std.specs.Prelude.{◌≡◌, IfOk, map, string_bytes};
ghost use Rattle.std.specs.Process.{exit_status};
ghost use Rattle.b67_io.specs.Causes.{Rose};
ghost use Rattle.b67_program.specs.Started.{IsProcessServed};
ghost use Rattle.b67_program.specs.Words.{texts_of};

use crate::files::Devices;
use crate::serving::serve;
use crate::words::Words;
use b67_io::{Sink, Source};
use b67_job::refuse_memory;
use std::alloc::{AllocError, Global};
use std::process::ExitCode;

/// The same words, as `serve` takes them.
fn borrowed<'a>(alloc: Global, words: &'a [String]) -> Result<Vec<&'a str>, AllocError>
    ensures { IfOk result (λ all. texts_of all.items ≡ map string_bytes words.now) }
{
    let mut all = Vec::new(alloc);
    'words: for word in words {
        all.push(word.as_str())?;
    }
    Ok(all)
}

/// Serves a process: carries out the command that its words are, over its input, its printer and its files, and answers with what
/// the process is to end.
///
/// The status is that of `serve` on these words. If memory is refused for them it is 9, `NO MEMORY` is printed, nothing is read and no
/// file is opened.
pub fn serve_process<R: Words + Devices, S: Source, K: Sink>(
    alloc: Global,
    process: &mut R,
    input: &mut S,
    printer: &mut K,
) -> ExitCode
    // The process's words were served, or memory was refused for them.
    ensures started { IsProcessServed R.given R.opened R.kept R.File.holds R.File.size R.File.faults process.old process.new S.left S.faults input.old input.new
        K.taken K.faults printer.old printer.new (exit_status result) }

    // Status 7 is that a read of the input failed.
    ensures reading { exit_status result ≡ 7 → Rose S.faults input.old input.new }
{
    match process.words(alloc) {
        Ok(words) => match borrowed(alloc, words.as_slice()) {
            Ok(words) => serve(alloc, words.as_slice(), process, input, printer),
            Err(_) => ExitCode::from(refuse_memory(printer).status),
        },
        Err(_) => ExitCode::from(refuse_memory(printer).status),
    }
}
