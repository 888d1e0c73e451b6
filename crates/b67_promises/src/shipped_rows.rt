//! The program's call over a process, a reader and a writer in memory: the premises of the theorems on it are met here.

ghost use Rattle.std.specs.Prelude.{None};
ghost use Rattle.b67_promises.specs.Shelves.{shelf_kept};

use crate::given::same;
use crate::shelf::{Shelf, ShelfFile};
use crate::shipped::{program_described, program_in_memory, program_twice};
use b67_backing::{Backing, CrookedBacking};
use b67_program::{Devices, Words, calm_paper, serve, tape_of};
use b67_recorded::{Mirrored, RecordedProcess, RecordedSink, RecordedSource};
use std::alloc::{AllocError, Global};
use std::io;
use std::io::Write;
use std::process::{Abort, ExitCode};

/// Two arrays of 200 words: in 630 words of core each evicts the other.
const TWO: &str =
    "?STACK 256\n?JOB TWO\n?ASM\nSEGMENT MAIN 2\nMKST\nNAMC 0,8\nLT8 200\nENTR\nMKST\nNAMC 0,8\nLT8 200\nENTR\nNAMC 2,2\nLT8 5\nINDX\nNAMC 2,3\nLT8 6\nINDX\nLT8 11\nNAMC 2,4\nSTOD\nLT8 12\nNAMC 2,5\nSTOD\nMKST\nNAMC 0,9\nVALC 2,4\nVALC 2,5\nADD\nENTR\nEXIT\n?END\n";

const LINES: &str = "1.1 23\n1.1 ENDED\n";

const SMALL: [&str; 5] = ["run", "--core", "630", "--backing", "b"];

const LARGE: [&str; 5] = ["run", "--core", "4096", "--backing", "b"];

/// A process with these words, whose files are on a shelf.
#[derive(Drop)]
struct Desk {
    words: &'static [&'static str],
    shelf: Shelf,
}

impl Words for Desk {
    ghost given = { λ _. None };

    fn words(&self, alloc: Global) -> Result<Vec<String>, AllocError> {
        let mut words = Vec::new(alloc);
        for word in self.words {
            words.push(String::from_str(alloc, *word)?)?;
        }
        Ok(words)
    }
}

impl Devices for Desk {
    type File = ShelfFile;

    ghost opened = { λ _. None };

    ghost kept = { λ d path. shelf_kept d.shelf path };

    fn open(&mut self, path: &str) -> ShelfFile {
        self.shelf.open(path)
    }

    fn close(&mut self, path: &str, file: ShelfFile) {
        self.shelf.close(path, file);
    }
}

/// A writer that takes one byte of each piece.
#[derive(Drop)]
struct ByBytes {
    lines: Vec<u8>,
}

impl Write for ByBytes {
    fn write(&mut self, buf: &[u8]) -> io::Result<usize> {
        match buf.first() {
            None => Ok(0),
            Some(byte) => {
                self.lines.push(*byte)?;
                Ok(1)
            }
        }
    }

    fn flush(&mut self) -> io::Result<()> {
        Ok(())
    }
}

fn writer(alloc: Global) -> ByBytes {
    ByBytes {
        lines: Vec::new(alloc),
    }
}

fn process_of(words: &'static [&'static str]) -> Desk {
    Desk {
        words,
        shelf: Shelf::new(),
    }
}

fn serve_one(alloc: Global, lines: &mut ByBytes) -> ExitCode {
    let mut process = RecordedProcess::new(process_of(&SMALL));
    let mut input = RecordedSource::new(TWO.as_bytes());
    let mut printer = RecordedSink::new(lines);
    program_described(alloc, &mut process, &mut input, &mut printer)
}

#[test]
fn serves_a_recorded_process(rt: HostRuntime) {
    let mut lines = writer(rt.alloc());
    let code = serve_one(rt.alloc(), &mut lines);
    same(&rt, code == ExitCode::SUCCESS, true);
    same(&rt, lines.lines.as_slice(), LINES.as_bytes());
}

fn serve_two(
    alloc: Global,
    lines: &mut ByBytes,
    other_lines: &mut ByBytes,
) -> (ExitCode, ExitCode) {
    let mut process = RecordedProcess::new(process_of(&SMALL));
    let mut input = RecordedSource::new(TWO.as_bytes());
    let mut printer = RecordedSink::new(lines);
    let mut other_process = RecordedProcess::new(process_of(&LARGE));
    let mut other_input = RecordedSource::new(TWO.as_bytes());
    let mut other_printer = RecordedSink::new(other_lines);
    program_twice(
        alloc,
        &mut process,
        &mut input,
        &mut printer,
        &mut other_process,
        &mut other_input,
        &mut other_printer,
    )
}

#[test]
fn serves_two_recorded_processes(rt: HostRuntime) {
    let (mut lines, mut other_lines) = (writer(rt.alloc()), writer(rt.alloc()));
    let codes = serve_two(rt.alloc(), &mut lines, &mut other_lines);
    same(&rt, codes.0 == ExitCode::SUCCESS, true);
    same(&rt, codes.1 == ExitCode::SUCCESS, true);
    same(&rt, lines.lines.as_slice(), LINES.as_bytes());
    same(&rt, other_lines.lines.as_slice(), LINES.as_bytes());
}

#[test]
fn serves_a_text_in_memory(rt: HostRuntime) {
    let mut process = RecordedProcess::new(process_of(&SMALL));
    let (code, lines) = program_in_memory(
        rt.alloc(),
        &mut process,
        TWO.as_bytes(),
        Vec::new(rt.alloc()),
    );
    same(&rt, code == ExitCode::SUCCESS, true);
    same(&rt, lines.as_slice(), LINES.as_bytes());
}

// A device that gives one number at every place: what was written comes back as a failure.
#[test]
fn lies_are_failures(rt: HostRuntime) {
    let mut mirror = Mirrored::over(CrookedBacking::new(9, 7), Vec::new(rt.alloc()));
    same(&rt, mirror.write(1, &[7; 30]).is_ok(), true);
    same(&rt, mirror.read(1, &mut [0; 30]).is_ok(), true);
    same(&rt, mirror.write(1, &[5; 30]).is_ok(), true);
    same(&rt, mirror.read(1, &mut [0; 30]).is_ok(), false);
}
