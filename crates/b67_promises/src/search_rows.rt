//! A search and steps from an image, over memory alone.

use crate::given::same;
use b67_program::{CodePlace, Place, Sought, find_in_memory, serve_in_memory, step_in_memory};
use std::alloc::Global;
use std::process::Abort;

/// MKST / NAMC 0,9 / LT8 2 / LT8 3 / ADD / ENTR / EXIT.
const SUM: &str =
    "?JOB SUM\n?HEX\n423637434f44453100010000020002\n0003ae4009b202b200030380aba3ffff\n?END\n";

/// The same with a halt after its second operator.
const HALTED: &str =
    "?HALT 2\n?JOB SUM\n?HEX\n423637434f44453100010000020002\n0003ae4009b202b200030380aba3ffff\n?END\n";

/// Where its fifth operator stands.
const ADD: CodePlace = CodePlace {
    job: 1,
    segment: 2,
    place: Place {
        word: 1,
        syllable: 1,
    },
};

/// The least count from `from` on at which the next operator is that one.
fn found(alloc: Global, from: u64) -> Option<u64> {
    match find_in_memory(
        alloc,
        SUM.as_bytes(),
        4096,
        9,
        Sought::Place,
        &[ADD],
        from,
        99,
    ) {
        Ok(count) => count,
        Err(_fault) => None,
    }
}

#[test]
fn finds_in_memory(rt: HostRuntime) {
    same(&rt, found(rt.alloc(), 0), Some(4));
    same(&rt, found(rt.alloc(), 5), None);
}

const IMAGE: [&str; 5] = ["image", "--core", "4096", "--backing", "b"];

/// Prints the image at the halt, and goes on from there: the status and how many bytes are printed then.
fn stepped(
    alloc: Global,
    most: u64,
    sectors: &mut [[u64; 30]],
    image: &mut [u8],
    lines: &mut [u8],
) -> (u8, usize) {
    let (mut length, mut printed) = (0, 0);
    serve_in_memory(
        alloc,
        &IMAGE,
        HALTED.as_bytes(),
        sectors,
        image,
        &mut length,
    );
    let text = &image[..length.min(image.len())];
    let status = step_in_memory(alloc, text, most, sectors, lines, &mut printed);
    (status, printed)
}

/// Goes on by so many operators, and compares the status and what is printed first: how many bytes are printed.
fn steps_so(rt: &impl Abort, alloc: Global, most: u64, status: u8, begin: &str) -> usize {
    let mut sectors = [[0u64; 30]; 9];
    let mut image = Vec::from_elem(alloc, 0u8, 99_999).expect(rt, "memory");
    let mut lines = Vec::from_elem(alloc, 0u8, 99_999).expect(rt, "memory");
    let (given, printed) = stepped(alloc, most, &mut sectors, &mut image, &mut lines);
    same(rt, (most, given), (most, status));
    let begins = lines.as_slice().starts_with(begin.as_bytes());
    same(rt, (most, begins), (most, true));
    printed
}

// The count of operators, the status and the first bytes.
#[test]
fn steps_in_memory(rt: HostRuntime) {
    let alloc = rt.alloc();
    steps_so(&rt, alloc, 1, 3, "?IMAGE\n");
    steps_so(&rt, alloc, 4, 3, "1.1 5\n?IMAGE\n");
    let printed = steps_so(&rt, alloc, 99, 0, "1.1 5\n1.1 ENDED\n");
    same(&rt, printed, 16);
}
