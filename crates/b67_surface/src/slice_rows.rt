//! Slices of steps: whole and one by one, over devices and printers of which a call fails, and after a run that stopped.

ghost use Rattle.std.specs.Prelude.{◌≡◌, ◌+◌, ◌<◌, ◌≤◌, ◌^◌, length, IfSome};
ghost use Rattle.b67_session.specs.Slices.{IsOpen};
ghost use Rattle.b67_session.specs.Decks.{DeckInRange};

use crate::given::{device_of, paper_of, run_over, same, text_of};
use b67_backing::Backing;
use b67_io::{Paper, Sink, Tape};
use b67_job::{Progress, Session, admit, refuse_memory};
use b67_load::Admitted;
use b67_model_text::Deck;
use b67_session::{Stop, open};
use b67_word::{Bytes, Numbers};
use std::alloc::Global;
use std::process::Abort;

/// Two arrays, of which core has room for one.
const TWO: &[u8] =
    b"?JOB TWO\n?ASM\nSEGMENT MAIN 2\nMKST\nNAMC 0,8\nLT8 200\nENTR\nMKST\nNAMC 0,8\nLT8 200\nENTR\nNAMC 2,2\nLT8 5\nINDX\nNAMC 2,3\nLT8 6\nINDX\nLT8 11\nNAMC 2,4\nSTOD\nLT8 12\nNAMC 2,5\nSTOD\nMKST\nNAMC 0,9\nVALC 2,4\nVALC 2,5\nADD\nENTR\nEXIT\n?END\n";

/// What it prints.
const TWO_LINES: &[u8] = b"1.1 23\n1.1 ENDED\n";

/// A task and its child share eight arrays of 200 words, of which the child adds 100 to a word of each. 58 sectors; 174
/// operators.
const EIGHT: &[u8] =
    b"?JOB EIGHT\n?ASM\nSEGMENT MAIN 2\nMPCW CH\nMKST\nNAMC 0,8\nLT8 200\nENTR\nMKST\nNAMC 0,8\nLT8 200\n\
    ENTR\nMKST\nNAMC 0,8\nLT8 200\nENTR\nMKST\nNAMC 0,8\nLT8 200\nENTR\nMKST\nNAMC 0,8\nLT8 200\nENTR\n\
    MKST\nNAMC 0,8\nLT8 200\nENTR\nMKST\nNAMC 0,8\nLT8 200\nENTR\nMKST\nNAMC 0,8\nLT8 200\nENTR\n\
    NAMC 2,3\nLT8 0\nINDX\nNAMC 2,4\nLT8 1\nINDX\nNAMC 2,5\nLT8 2\nINDX\nNAMC 2,6\nLT8 3\nINDX\n\
    NAMC 2,7\nLT8 4\nINDX\nNAMC 2,8\nLT8 5\nINDX\nNAMC 2,9\nLT8 6\nINDX\nNAMC 2,10\nLT8 7\nINDX\n\
    LT8 11\nNAMC 2,11\nSTOD\nLT8 12\nNAMC 2,12\nSTOD\nLT8 13\nNAMC 2,13\nSTOD\nLT8 14\nNAMC 2,14\nSTOD\n\
    LT8 15\nNAMC 2,15\nSTOD\nLT8 16\nNAMC 2,16\nSTOD\nLT8 17\nNAMC 2,17\nSTOD\nLT8 18\nNAMC 2,18\nSTOD\n\
    MKST\nNAMC 0,12\nNAMC 2,2\nENTR\nMKST\nNAMC 0,13\nVALC 2,19\nENTR\nMKST\nNAMC 0,9\nVALC 2,11\n\
    VALC 2,12\nADD\nVALC 2,13\nADD\nVALC 2,14\nADD\nVALC 2,15\nADD\nVALC 2,16\nADD\nVALC 2,17\nADD\n\
    VALC 2,18\nADD\nENTR\nEXIT\nSEGMENT CH 3\nNAMC 2,3\nLT8 0\nINDX\nNAMC 2,4\nLT8 1\nINDX\nNAMC 2,5\n\
    LT8 2\nINDX\nNAMC 2,6\nLT8 3\nINDX\nNAMC 2,7\nLT8 4\nINDX\nNAMC 2,8\nLT8 5\nINDX\nNAMC 2,9\nLT8 6\n\
    INDX\nNAMC 2,10\nLT8 7\nINDX\nVALC 3,2\nLT8 100\nADD\nNAMC 3,2\nSTOD\nVALC 3,3\nLT8 100\nADD\n\
    NAMC 3,3\nSTOD\nVALC 3,4\nLT8 100\nADD\nNAMC 3,4\nSTOD\nVALC 3,5\nLT8 100\nADD\nNAMC 3,5\nSTOD\n\
    VALC 3,6\nLT8 100\nADD\nNAMC 3,6\nSTOD\nVALC 3,7\nLT8 100\nADD\nNAMC 3,7\nSTOD\nVALC 3,8\nLT8 100\n\
    ADD\nNAMC 3,8\nSTOD\nVALC 3,9\nLT8 100\nADD\nNAMC 3,9\nSTOD\nEXIT\n?END\n";

/// What it prints.
const EIGHT_LINES: &[u8] = b"1.2 ENDED\n1.1 916\n1.1 ENDED\n";

/// A child adds one to its parent's cell. The parent makes 15 operators, of which the last is AWAIT; then the child makes six,
/// and its parent makes AWAIT again and five more.
const CHILD: &[u8] =
    b"?JOB A\n?ASM\nSEGMENT M 2\nZERO\nMPCW INC\nMKST\nNAMC 0,12\nNAMC 2,3\nENTR\nVALC 2,2\nONE\nADD\nNAMC 2,2\nSTOD\nMKST\nNAMC 0,13\nVALC 2,4\nENTR\nMKST\nNAMC 0,9\nVALC 2,2\nENTR\nEXIT\nSEGMENT INC 3\nVALC 2,2\nONE\nADD\nNAMC 2,2\nSTOD\nEXIT\n?END\n";

/// What it prints.
const CHILD_LINES: &[u8] = b"1.2 ENDED\n1.1 2\n1.1 ENDED\n";

/// A task that runs to its limit.
const LOOP: &[u8] = b"?JOB A\n?LIMIT 5\n?ASM\nSEGMENT MAIN 2\nL: BRUN L\n?END\n";

/// What it prints.
const LOOP_LINES: &[u8] = b"1.1 LIMIT\n";

/// A card that gives each task 256 words of stack.
const STACK: &[u8] = b"?STACK 256\n";

/// Opens a deck's session in so much core. No step is made.
fn open_deck<B: Backing>(
    alloc: Global,
    core: u32,
    deck: &Deck,
    programs: &[Admitted],
    backing: &mut B,
) -> Option<Session>
    requires low { 256 ≤ core }
    requires high { core < 2 ^ 20 }
    requires range { DeckInRange deck.now }
    requires each { length programs.now ≡ length deck.now.jobs }
    ensures open { IfSome result (λ k. IsOpen (B.holds backing.new) k) }
    ensures sized { IfSome result (λ k. B.size backing.new + 1 ≡ length k.sectors.links) }
{
    match open(alloc, deck, programs, core, backing) {
        Ok(session) => Some(session),
        Err(_fault) => None,
    }
}

/// Reads a deck, and opens its session so.
fn opened<B: Backing>(alloc: Global, core: u32, text: Bytes, backing: &mut B) -> Option<Session>
    requires low { 256 ≤ core }
    requires high { core < 2 ^ 20 }
    ensures open { IfSome result (λ k. IsOpen (B.holds backing.new) k) }
    ensures sized { IfSome result (λ k. B.size backing.new + 1 ≡ length k.sectors.links) }
{
    let mut tape = Tape::new(text, 4096, Numbers::new(alloc));
    match admit(alloc, &mut tape) {
        Ok(loaded) => open_deck(
            alloc,
            core,
            &loaded.deck,
            loaded.programs.as_slice(),
            backing,
        ),
        Err(_fault) => None,
    }
}

/// What two slices of a session answer, and how many operators were made after each.
#[derive(Drop)]
struct Slices {
    first: Result<Progress, Stop>,
    made: u64,
    second: Result<Progress, Stop>,
    all_made: u64,
}

/// Asks for `n` steps twice.
fn two_slices<B: Backing, K: Sink>(
    mut session: Session,
    n: u64,
    backing: &mut B,
    paper: &mut K,
) -> Slices
    requires open { IsOpen (B.holds backing.old) session }
    requires sized { B.size backing.old + 1 ≡ length session.sectors.links }
{
    let first = session.slice(n, backing, paper);
    let made = session.machine().tasks.made;
    let second = session.slice(n, backing, paper);
    Slices {
        first,
        made,
        second,
        all_made: session.machine().tasks.made,
    }
}

/// The numbers of a read, of a write and of a put that fail.
#[derive(Clone, Copy)]
struct Fails {
    read: i64,
    write: i64,
    put: i64,
}

/// Opens a deck's session over so many sectors and asks for `n` steps twice, where these calls fail. The second slice comes to the
/// end, and the lines in all are those of a run without a failure.
fn sliced(
    rt: &impl Abort,
    alloc: Global,
    core: u32,
    sectors: u32,
    deck: Bytes,
    n: u64,
    fails: Fails,
    lines: &[u8],
) -> Slices
    requires low { 256 ≤ core }
    requires high { core < 2 ^ 20 }
    requires some { 1 ≤ sectors }
    requires few { sectors < 2 ^ 20 }
{
    let mut backing = device_of(rt, alloc, sectors, fails.read, fails.write);
    let mut paper = paper_of(rt, alloc, 1000, fails.put);
    let Some(session) = opened(alloc, core, deck, &mut backing) else {
        panic!(rt; "not opened")
    };
    let run = two_slices(session, n, &mut backing, &mut paper);
    let calls = (fails.read, fails.write, fails.put);
    same(rt, (calls, run.second), (calls, Ok(Progress::Ended)));
    same(rt, (calls, paper.bytes()), (calls, lines));
    run
}

/// EIGHT in the least core over a device of which these calls fail, where a slice goes on after a stop: whether it stopped.
fn eight_stops(rt: &impl Abort, alloc: Global, fails: Fails) -> bool {
    let deck = text_of(rt, alloc, STACK, EIGHT);
    let run = sliced(rt, alloc, 910, 58, deck, 1000, fails, EIGHT_LINES);
    same(
        rt,
        (fails.read, fails.write, run.all_made),
        (fails.read, fails.write, 174),
    );
    if run.first == Ok(Progress::Ended) {
        return false;
    }
    same(
        rt,
        (fails.read, fails.write, run.first),
        (fails.read, fails.write, Err(Stop::BackingFault)),
    );
    true
}

/// Each write, or each read, from a number on fails once, up to the first run without a failure.
fn each_fails_once(rt: &impl Abort, alloc: Global, from: i64, is_write: bool) {
    for k in from..1000i64 {
        let (read, write) = if is_write { (0, k) } else { (k, 0) };
        if !eight_stops(
            rt,
            alloc,
            Fails {
                read,
                write,
                put: 0,
            },
        ) {
            assert!(rt; k > 100);
            return;
        }
    }
    panic!(rt; "no run without a failure")
}

// The first two writes are made as the session is opened. The parent, which stores into each of eight arrays of seven sectors,
// and then the child bring each array out.
#[test]
fn each_write_fails_once(rt: HostRuntime) {
    each_fails_once(&rt, rt.alloc(), 3, true);
}

// The child, and then its parent bring in each array, whose words were written before.
#[test]
fn each_read_fails_once(rt: HostRuntime) {
    each_fails_once(&rt, rt.alloc(), 1, false);
}

/// A put of a printer fails: whether the first slice stops, the operators made after it and in all, and the lines.
fn put_fails(
    rt: &impl Abort,
    alloc: Global,
    job: &[u8],
    n: u64,
    put: i64,
    stops: bool,
    made: [u64; 2],
    lines: &[u8],
) {
    let fails = Fails {
        read: 0,
        write: 0,
        put,
    };
    let deck = text_of(rt, alloc, b"", job);
    let run = sliced(rt, alloc, 4096, 64, deck, n, fails, lines);
    let is_stopped = run.first == Err(Stop::PrintFault);
    same(
        rt,
        (put, is_stopped, [run.made, run.all_made]),
        (put, stops, made),
    );
}

// A step whose text isn't printed isn't made, but one whose lines of LIMIT aren't printed is. Each line is printed once.
#[test]
fn each_put_fails_once(rt: HostRuntime) {
    let alloc = rt.alloc();
    put_fails(&rt, alloc, CHILD, 1000, 1, true, [20, 27], CHILD_LINES);
    put_fails(&rt, alloc, CHILD, 1000, 2, true, [25, 27], CHILD_LINES);
    put_fails(&rt, alloc, CHILD, 1000, 3, true, [26, 27], CHILD_LINES);
    put_fails(&rt, alloc, CHILD, 1000, 4, false, [27, 27], CHILD_LINES);
    put_fails(&rt, alloc, LOOP, 10, 1, true, [5, 5], LOOP_LINES);
    put_fails(&rt, alloc, LOOP, 10, 2, false, [5, 5], LOOP_LINES);
}

/// Runs `slices` slices of `steps` steps each. True if none of them stopped.
fn make_slices<B: Backing, K: Sink>(
    session: &mut Session,
    slices: u64,
    steps: u64,
    backing: &mut B,
    paper: &mut K,
) -> bool
    requires open { IsOpen (B.holds backing.old) session.old }
    requires sized { B.size backing.old + 1 ≡ length session.old.sectors.links }
{
    'turns: for _made in 0..slices {
        match session.slice(steps, backing, paper) {
            Ok(_progress) => {}
            Err(_stop) => return false,
        }
    }
    true
}

/// The same of a session: also how many steps its machine has counted then.
fn count_slices<B: Backing, K: Sink>(
    mut session: Session,
    slices: u64,
    steps: u64,
    backing: &mut B,
    paper: &mut K,
) -> (bool, u64)
    requires open { IsOpen (B.holds backing.old) session }
    requires sized { B.size backing.old + 1 ≡ length session.sectors.links }
{
    let all = make_slices(&mut session, slices, steps, backing, paper);
    (all, session.machine().tasks.made)
}

/// So many slices of so many steps of EIGHT in its least core: how many steps its machine has counted, and the device's calls.
fn counts_of_slices(rt: &impl Abort, alloc: Global, slices: u64, steps: u64) -> (u64, u64) {
    let mut backing = device_of(rt, alloc, 4096, 0, 0);
    let mut paper = paper_of(rt, alloc, 1000, 0);
    let deck = text_of(rt, alloc, STACK, EIGHT);
    let Some(session) = opened(alloc, 910, deck, &mut backing) else {
        panic!(rt; "not opened")
    };
    let (all, made) = count_slices(session, slices, steps, &mut backing, &mut paper);
    same(rt, (slices, steps, all), (slices, steps, true));
    (made, backing.calls())
}

/// EIGHT with a halt at a count.
fn halted_deck(rt: &impl Abort, alloc: Global, halt: u64) -> Bytes {
    let cards = format!(in alloc; "?STACK 256\n?HALT {halt}\n").expect(rt, "memory");
    text_of(rt, alloc, cards.as_bytes(), EIGHT)
}

fn status_over<B: Backing>(rt: &impl Abort, alloc: Global, deck: Bytes, backing: &mut B) -> u8 {
    run_over(rt, alloc, "910", deck, backing).status
}

/// How many calls of the device a run of EIGHT makes that halts at a count.
fn halted_calls(rt: &impl Abort, alloc: Global, halt: u64) -> u64 {
    let mut backing = device_of(rt, alloc, 4096, 0, 0);
    let status = status_over(rt, alloc, halted_deck(rt, alloc, halt), &mut backing);
    same(rt, (halt, status), (halt, 3));
    backing.calls()
}

/// Halted at a count, in one slice and in slices of one step the device has as many calls.
fn pages_alike(rt: &impl Abort, alloc: Global, halt: u64) {
    let wanted = (halt, halted_calls(rt, alloc, halt));
    same(rt, counts_of_slices(rt, alloc, 1, halt), wanted);
    same(rt, counts_of_slices(rt, alloc, halt, 1), wanted);
}

// EIGHT, to forty counts.
#[test]
fn paging_is_stepwise(rt: HostRuntime) {
    for turn in 1..41u64 {
        pages_alike(&rt, rt.alloc(), 4 * turn);
    }
}

/// A session comes to its end in a slice: with these operators and lines, and no task.
fn ends<B: Backing>(
    rt: &impl Abort,
    mut session: Session,
    backing: &mut B,
    paper: &mut Paper,
    made: u64,
    lines: &[u8],
)
    requires open { IsOpen (B.holds backing.old) session }
    requires sized { B.size backing.old + 1 ≡ length session.sectors.links }
{
    let progress = session.slice(1000, backing, paper);
    same(rt, (made, progress), (made, Ok(Progress::Ended)));
    same(rt, (made, paper.bytes()), (made, lines));
    same(rt, session.machine().tasks.made, made);
    let tasks = session.into_machine().tasks;
    same(rt, (made, tasks.rows.is_empty()), (made, true));
}

/// After its third write has failed a session goes on where it stopped, with these operators and lines in all.
fn goes_on(rt: &impl Abort, alloc: Global, core: &str, job: &[u8], made: u64, lines: &[u8]) {
    let mut backing = device_of(rt, alloc, 4096, 0, 3);
    let deck = text_of(rt, alloc, STACK, job);
    let outcome = run_over(rt, alloc, core, deck, &mut backing);
    same(rt, (core, outcome.status), (core, 6));
    let Some(machine) = outcome.machine else {
        panic!(rt; "no session was opened")
    };
    let mut paper = paper_of(rt, alloc, 1000, 0);
    ends(
        rt,
        Session::of(machine),
        &mut backing,
        &mut paper,
        made,
        lines,
    );
}

// Two arrays of which core has room for one, and a task and its child which share eight.
#[test]
fn a_stopped_session_goes_on(rt: HostRuntime) {
    let alloc = rt.alloc();
    goes_on(&rt, alloc, "630", TWO, 27, TWO_LINES);
    goes_on(&rt, alloc, "910", EIGHT, 174, EIGHT_LINES);
}

#[test]
fn no_memory(rt: HostRuntime) {
    let mut paper = paper_of(&rt, rt.alloc(), 20, 0);
    same(&rt, refuse_memory(&mut paper).status, 9);
    same(&rt, paper.bytes(), b"NO MEMORY\n".as_slice());
}
