//! Sessions that are opened, and what is refused.

ghost use Rattle.std.specs.Prelude.{◌≡◌, ◌<◌, ◌≤◌, ◌^◌, length};
ghost use Rattle.b67_session.specs.Decks.{DeckInRange};

use crate::given::{device_of, nth, same};
use b67_backing::Backing;
use b67_codefile::read;
use b67_core::Core;
use b67_load::{Admitted, verify};
use b67_model_text::{Body, Deck, Job, Jobs, Name, Switches};
use b67_session::{OpenFault, open_machine};
use b67_task::{JobRow, Machine};
use b67_word::{Bytes, Numbers, Word};
use std::alloc::Global;
use std::process::Abort;

/// The beginning of a program in version 1: a segment of level 2 that leaves at once, and how many words its data row has.
const PROGRAM: [u8; 25] = [
    0x42, 0x36, 0x37, 0x43, 0x4f, 0x44, 0x45, 0x31, 0, 1, 0, 1, 2, 0, 1, 0, 3, 0xa3, 0xff, 0xff,
    0xff, 0xff, 0xff, 0, 31,
];

/// The program, with the words of its data row: 0 to 30.
fn text(rt: &impl Abort, alloc: Global) -> Bytes {
    let mut text = Bytes::new(alloc);
    text.extend(&PROGRAM).expect(rt, "memory");
    for n in 0..31u64 {
        text.extend(&n.to_be_bytes()).expect(rt, "memory");
    }
    text
}

fn program(rt: &impl Abort, alloc: Global) -> Admitted {
    let Ok(file) = read(alloc, text(rt, alloc).as_slice()) else {
        panic!(rt; "a good file")
    };
    verify(alloc, file).ok().expect(rt, "a good program")
}

/// A deck of one job, to be opened with that program.
fn deck(rt: &impl Abort, alloc: Global, stack: u16) -> Deck
    requires low { 64 ≤ stack }
    requires high { stack < 2 ^ 14 }
    ensures range { DeckInRange result }
    ensures one { length result.jobs ≡ 1 }
{
    let mut numbers = Numbers::new(alloc);
    let Ok(()) = numbers.push(-5) else {
        panic!(rt; "memory")
    };
    let mut jobs = Jobs::new(alloc);
    let Ok(()) = jobs.push(Job {
        name: Name::new(b"A"),
        limit: 1000,
        card: 1,
        body_card: 2,
        program: Body::Bytes(Bytes::new(alloc)),
        numbers,
    }) else {
        panic!(rt; "memory")
    };
    Deck {
        stack,
        quantum: 100,
        halt: Some(7),
        switches: Switches::new(alloc),
        jobs,
    }
}

/// Opens a deck in 256 words of core.
fn open_small<B: Backing>(
    alloc: Global,
    deck: &Deck,
    programs: &[Admitted],
    backing: &mut B,
) -> Result<Machine, OpenFault>
    requires range { DeckInRange deck.now }
    requires each { length programs.now ≡ length deck.now.jobs }
{
    open_machine(alloc, deck, programs, 256, backing)
}

/// Opens it over so many sectors, where the write of that number fails.
fn opened(
    rt: &impl Abort,
    alloc: Global,
    stack: u16,
    sectors: u32,
    failing: i64,
) -> Result<Machine, OpenFault> {
    assert!(rt; 64 <= stack && stack < 16_384 && 1 <= sectors && sectors < 4);
    let mut backing = device_of(rt, alloc, sectors, 0, failing);
    let programs = [program(rt, alloc)];
    let deck = deck(rt, alloc, stack);
    open_small(alloc, &deck, &programs, &mut backing)
}

/// What is refused, if anything.
fn is_refused(
    rt: &impl Abort,
    alloc: Global,
    stack: u16,
    sectors: u32,
    failing: i64,
    wanted: Option<OpenFault>,
) {
    let told = opened(rt, alloc, stack, sectors, failing).err();
    same(rt, (stack, told), (stack, wanted));
}

#[test]
fn each_refusal_is_told(rt: HostRuntime) {
    let alloc = rt.alloc();
    let full = OpenFault::BackingFull { sum: 3, sectors: 2 };
    let none = OpenFault::NoCore {
        need: 257,
        core: 256,
    };
    let fault = OpenFault::BackingFault;
    is_refused(&rt, alloc, 92, 3, 4, None);
    is_refused(&rt, alloc, 93, 3, 4, Some(none));
    is_refused(&rt, alloc, 93, 2, 1, Some(none));
    is_refused(&rt, alloc, 92, 2, 1, Some(full));
    is_refused(&rt, alloc, 64, 3, 1, Some(fault));
    is_refused(&rt, alloc, 64, 3, 2, Some(fault));
    is_refused(&rt, alloc, 64, 3, 3, Some(fault));
    is_refused(&rt, alloc, 92, 3, 3, Some(fault));
}

/// The machine of the session in stacks of 64 words.
fn machine(rt: &impl Abort, alloc: Global) -> Machine {
    opened(rt, alloc, 64, 3, 4)
        .ok()
        .expect(rt, "no session is opened")
}

/// Some words of core: their addresses, tags and bits.
const WORDS: [(u32, u8, u64); 14] = [
    (0, 3, 0x4000_0000_0000),
    (8, 7, 0x8_0008),
    (18, 7, 0x8_0012),
    (32, 3, 0x7ff0_0001_0000),
    (33, 0, 0),
    (152, 3, 228),
    (160, 3, 0xc880_0000_4000),
    (161, 0, 2),
    (162, 3, 0x0000_0010_0001),
    (163, 5, 0x0800_01f0_0002),
    (164, 3, 0x0000_0020_8001),
    (165, 3, 0xc800_0000_8000),
    (166, 3, 0),
    (228, 3, 0xc000_01c0_0000),
];

fn words_lie(rt: &impl Abort, core: &Core, words: &[(u32, u8, u64)]) {
    for (at, tag, bits) in words {
        assert!(rt; *at < core.size());
        same(
            rt,
            (*at, Some(core.get(*at))),
            (*at, Word::new(*tag, *bits)),
        );
    }
}

#[test]
fn words_lie_where_they_belong(rt: HostRuntime) {
    let core = machine(&rt, rt.alloc()).cpu.core;
    same(&rt, core.size(), 256);
    words_lie(&rt, &core, &WORDS);
}

const NUMBERS: [i64; 1] = [-5];

fn is_job(rt: &impl Abort, job: &JobRow) {
    same(rt, (job.name.as_str(), job.dict), ("A", 160));
    same(rt, job.numbers.as_slice(), NUMBERS.as_slice());
}

#[test]
fn the_first_task_waits(rt: HostRuntime) {
    let tasks = machine(&rt, rt.alloc()).tasks;
    same(
        &rt,
        (tasks.rows.len(), tasks.running, tasks.halt),
        (1, 255, Some(7)),
    );
    let jobs = tasks.jobs.as_slice();
    same(&rt, jobs.len(), 1);
    is_job(&rt, nth(&rt, jobs, 0));
}
