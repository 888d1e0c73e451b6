//! A deck whose two arrays evict each other, served on one shelf and on another, in the least core and in a larger one.

use crate::given::same;
use crate::{Shelf, serve_halted_then_resumed, serve_on_shelf, serve_on_shelves};
use b67_io::{FreeTape, Paper};
use b67_program::{calm_paper, serve, serve_process, tape_of};
use std::alloc::Global;
use std::process::{Abort, ExitCode};

const TWO: &str =
    "?STACK 256\n?JOB TWO\n?ASM\nSEGMENT MAIN 2\nMKST\nNAMC 0,8\nLT8 200\nENTR\nMKST\nNAMC 0,8\nLT8 200\nENTR\nNAMC 2,2\nLT8 5\nINDX\nNAMC 2,3\nLT8 6\nINDX\nLT8 11\nNAMC 2,4\nSTOD\nLT8 12\nNAMC 2,5\nSTOD\nMKST\nNAMC 0,9\nVALC 2,4\nVALC 2,5\nADD\nENTR\nEXIT\n?END\n";

const LINES: &str = "1.1 23\n1.1 ENDED\n";

const SMALL: [&str; 5] = ["run", "--core", "630", "--backing", "b"];

const LARGE: [&str; 5] = ["run", "--core", "4096", "--backing", "c"];

/// A shelf, what a call on it reads, and what it prints to.
#[derive(Drop)]
struct Place {
    shelf: Shelf,
    input: FreeTape,
    paper: Paper,
}

/// A place with a text, and room for so many bytes.
fn place_with(rt: &impl Abort, alloc: Global, text: &[u8], room: usize) -> Place {
    Place {
        shelf: Shelf::new(),
        input: tape_of(alloc, text).expect(rt, "memory"),
        paper: calm_paper(alloc, room).expect(rt, "memory"),
    }
}

// What was printed is this.
fn is_printed(rt: &impl Abort, paper: &Paper, lines: &[u8]) {
    same(rt, paper.bytes(), lines);
}

// The call was answered by this code.
fn is_answered(rt: &impl Abort, code: ExitCode, wanted: ExitCode) {
    same(rt, code == wanted, true);
}

fn serve_alone(alloc: Global, place: &mut Place) -> ExitCode {
    let Place {
        shelf,
        input,
        paper,
    } = place;
    serve_on_shelf(alloc, &SMALL, shelf, input, paper)
}

#[test]
fn serves_on_a_shelf(rt: HostRuntime) {
    let mut place = place_with(&rt, rt.alloc(), TWO.as_bytes(), 99);
    is_answered(&rt, serve_alone(rt.alloc(), &mut place), ExitCode::SUCCESS);
    is_printed(&rt, &place.paper, LINES.as_bytes());
}

fn serve_both(alloc: Global, one: &mut Place, other: &mut Place) -> (ExitCode, ExitCode) {
    serve_on_shelves(
        alloc,
        &SMALL,
        &mut one.shelf,
        &mut one.input,
        &mut one.paper,
        &LARGE,
        &mut other.shelf,
        &mut other.input,
        &mut other.paper,
    )
}

#[test]
fn serves_on_two_shelves(rt: HostRuntime) {
    let mut one = place_with(&rt, rt.alloc(), TWO.as_bytes(), 99);
    let mut other = place_with(&rt, rt.alloc(), TWO.as_bytes(), 99);
    let codes = serve_both(rt.alloc(), &mut one, &mut other);
    is_answered(&rt, codes.0, ExitCode::SUCCESS);
    is_answered(&rt, codes.1, ExitCode::SUCCESS);
    is_printed(&rt, &one.paper, LINES.as_bytes());
    is_printed(&rt, &other.paper, LINES.as_bytes());
}

fn serve_words(alloc: Global, place: &mut Place) -> ExitCode {
    let Place {
        shelf,
        input,
        paper,
    } = place;
    serve_process(alloc, shelf, input, paper)
}

#[test]
fn serves_a_process(rt: HostRuntime) {
    let mut place = place_with(&rt, rt.alloc(), TWO.as_bytes(), 99);
    is_answered(&rt, serve_words(rt.alloc(), &mut place), ExitCode::SUCCESS);
    is_printed(&rt, &place.paper, b"TWO ADMITTED 1 0\n");
}

const IMAGE: [&str; 5] = ["image", "--core", "630", "--backing", "b"];

const RESUME: [&str; 3] = ["resume", "--backing", "b"];

const HALTING: &str =
    "?HALT 20\n?STACK 256\n?JOB TWO\n?ASM\nSEGMENT MAIN 2\nMKST\nNAMC 0,8\nLT8 200\nENTR\nMKST\nNAMC 0,8\nLT8 200\nENTR\nNAMC 2,2\nLT8 5\nINDX\nNAMC 2,3\nLT8 6\nINDX\nLT8 11\nNAMC 2,4\nSTOD\nLT8 12\nNAMC 2,5\nSTOD\nMKST\nNAMC 0,9\nVALC 2,4\nVALC 2,5\nADD\nENTR\nEXIT\n?END\n";

fn serve_image(alloc: Global, place: &mut Place) -> ExitCode {
    let Place {
        shelf,
        input,
        paper,
    } = place;
    serve(alloc, &IMAGE, shelf, input, paper)
}

// Runs to an image, and goes on with what the rest reads, over the first one's shelf.
fn serve_halves(alloc: Global, halted: &mut Place, rest: &mut Place) -> (ExitCode, ExitCode) {
    serve_halted_then_resumed(
        alloc,
        &IMAGE,
        &mut halted.shelf,
        &mut halted.input,
        &mut halted.paper,
        &RESUME,
        &mut rest.input,
        &mut rest.paper,
    )
}

// What `image` prints is known from a call of its own. What the file holds when the first call has ended is what the second one goes
// on with.
#[test]
fn goes_on_from_an_image(rt: HostRuntime) {
    let alloc = rt.alloc();
    let mut known = place_with(&rt, alloc, HALTING.as_bytes(), 100_000);
    is_answered(&rt, serve_image(alloc, &mut known), ExitCode::from(3));
    let mut halted = place_with(&rt, alloc, HALTING.as_bytes(), 100_000);
    let mut rest = place_with(&rt, alloc, known.paper.bytes(), 99);
    let codes = serve_halves(alloc, &mut halted, &mut rest);
    is_answered(&rt, codes.0, ExitCode::from(3));
    is_answered(&rt, codes.1, ExitCode::SUCCESS);
    is_printed(&rt, &halted.paper, known.paper.bytes());
    is_printed(&rt, &rest.paper, LINES.as_bytes());
}
