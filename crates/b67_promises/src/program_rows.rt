//! The program's call over memory alone, and which paths lead to one file. Over the system's files it is rows of `b67_rows`.

ghost use Rattle.std.specs.Prelude.{◌≡◌, ◌≤◌, ◌<◌, ◌^◌, length};

use crate::given::{length_of, remove_file, same, write_file};
use crate::run_in_memory_twice;
use b67_backing::Backing;
use b67_program::{lead_to_one_file, open_apart, serve_in_memory};
use std::alloc::{AllocError, Global};
use std::process::Abort;

/// MKST / NAMC 0,9 / LT8 2 / LT8 3 / ADD / ENTR / EXIT.
const SUM: &str =
    "?JOB SUM\n?HEX\n423637434f44453100010000020002\n0003ae4009b202b200030380aba3ffff\n?END\n";

/// A file of this name isn't there when the test begins.
const PATH: &str = "b67_program_sectors";

#[test]
fn paths_lead_to_one_file(rt: HostRuntime) {
    write_file(&rt, PATH, b"");
    same(&rt, lead_to_one_file(&rt, PATH, PATH), true);
    same(&rt, lead_to_one_file(&rt, PATH, "/dev/stdout"), false);
    remove_file(&rt, PATH);
    same(&rt, lead_to_one_file(&rt, PATH, PATH), false);
}

/// A file of this name isn't there either.
const PRINTED: &str = "b67_program_lines";

// Whether a sector is read of the file at a path, where lines are printed into that of another or the same.
fn is_backing(rt: &HostRuntime, path: &str, printed: &str) -> bool {
    open_apart(rt, path, printed).read(1, &mut [0; 30]).is_ok()
}

// A file that lines are printed into is no backing, and stays as it is; another one is.
#[test]
fn prints_into_no_backing(rt: HostRuntime) {
    write_file(&rt, PRINTED, b"");
    same(&rt, is_backing(&rt, PRINTED, PRINTED), false);
    same(&rt, length_of(&rt, PRINTED), 0);
    same(&rt, is_backing(&rt, PRINTED, "/dev/null"), true);
    remove_file(&rt, PRINTED);
}

// Makes a call: its status, and how many bytes it printed.
fn served(
    alloc: Global,
    words: &[&str],
    text: &[u8],
    sectors: &mut [[u64; 30]],
    lines: &mut [u8],
) -> (u8, usize) {
    let mut printed = 0;
    let status = serve_in_memory(alloc, words, text, sectors, lines, &mut printed);
    (status, printed)
}

/// Calls over so many sectors of zeros and so much room, and compares the status and what is printed.
fn serves_so(
    rt: &impl Abort,
    alloc: Global,
    words: &[&str],
    text: &str,
    count: usize,
    room: usize,
    status: u8,
    lines: &str,
) {
    let mut sectors = Vec::from_elem(alloc, [0u64; 30], count).expect(rt, "memory");
    let mut paper = Vec::from_elem(alloc, 0u8, room).expect(rt, "memory");
    let was = served(alloc, words, text.as_bytes(), &mut sectors, &mut paper);
    same(rt, was, (status, lines.len()));
    let begins = paper.as_slice().starts_with(lines.as_bytes());
    same(rt, (lines, begins), (lines, true));
}

const RUN: [&str; 5] = ["run", "--core", "4096", "--backing", "b"];

const CHECK: [&str; 1] = ["check"];

const NO_COMMAND: [&str; 1] = ["ru"];

/// What each deck or command prints.
const LINES: &str = "1.1 5\n1.1 ENDED\n";

const ADMITTED: &str = "SUM ADMITTED 1 0\n";

const REFUSED: &str = "DECK 1 REASON 4\n";

const USAGE: &str = "USAGE: b67 run --core N --backing PATH\n";

// The words, the text, the number of sectors, the room, the status and what is printed.
#[test]
fn serves_in_memory(rt: HostRuntime) {
    let alloc = rt.alloc();
    serves_so(&rt, alloc, &RUN, SUM, 9, 99, 0, LINES);
    serves_so(&rt, alloc, &RUN, SUM, 0, 99, 255, "");
    serves_so(&rt, alloc, &RUN, SUM, 9, 6, 8, "1.1 5\n");
    serves_so(&rt, alloc, &RUN, "?JOB a\n", 9, 99, 2, REFUSED);
    serves_so(&rt, alloc, &CHECK, SUM, 1, 99, 0, ADMITTED);
    serves_so(&rt, alloc, &NO_COMMAND, SUM, 1, 99, 1, USAGE);
}

const MORE: [&str; 5] = ["run", "--core", "5000", "--backing", "b"];

// The premises of two runs over memory: sectors, some of which are taken, and equal room.
fn runs_twice(
    alloc: Global,
    sectors: &[[u64; 30]],
    lines: &mut [u8],
    other_lines: &mut [u8],
) -> Result<(u8, u8), AllocError>
    requires low { 1 ≤ length sectors.now }
    requires high { length sectors.now < 2 ^ 20 }
    requires room { length lines.old ≡ length other_lines.old }
{
    let (mut printed, mut other_printed) = (0, 0);
    run_in_memory_twice(
        alloc,
        SUM.as_bytes(),
        &RUN,
        sectors,
        lines,
        &mut printed,
        &MORE,
        sectors,
        other_lines,
        &mut other_printed,
    )
}

#[test]
fn runs_in_memory_twice(rt: HostRuntime) {
    let (mut lines, mut other_lines) = ([0u8; 99], [0u8; 99]);
    let statuses = runs_twice(rt.alloc(), &[[0; 30]; 9], &mut lines, &mut other_lines);
    same(&rt, statuses.ok(), Some((0, 0)));
    same(&rt, lines.starts_with(LINES.as_bytes()), true);
    same(&rt, other_lines.starts_with(LINES.as_bytes()), true);
}
