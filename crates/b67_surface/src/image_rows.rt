//! A small image: the machine that is read of it, and that it is printed again. What is refused of it are rows of `b67_rows`.

ghost use Rattle.std.specs.Prelude.{◌≡◌};

use crate::given::{nth, paper_of, same};
use b67_core::to_number;
use b67_image::{read_image, write_image};
use b67_io::{Paper, Tape};
use b67_task::{JobRow, Machine, TaskState};
use b67_word::{Bytes, Numbers};
use std::alloc::Global;
use std::process::Abort;

/// 32 bytes.
const ZEROS: &str = "0000000000000000000000000000000000000000000000000000000000000000";

/// The lines of an image of two tasks, each behind so many lines of zeros, which are of core, of the display and of the critical
/// displacements.
const LINES: [(u32, &str); 29] = [
    (0, "?IMAGE"),
    // The text B67IMAGE, 368 words of core, and the first of them: the MCP's mark.
    (
        0,
        "423637494d414745000001700003400000000000000000000000000000000000",
    ),
    // The intrinsics.
    (
        1,
        "0000000000000000000000000007000000080008000700000008000900070000",
    ),
    (
        0,
        "0008000a000700000008000b000700000008000c000700000008000d00070000",
    ),
    (
        0,
        "0008000e000700000008000f0007000000080010000700000008001100070000",
    ),
    (
        0,
        "0008001200000000000000000000000000000000000000000000000000000000",
    ),
    // The stack vector: task 1 of job 1 in slot 0, and its child in slot 1.
    (
        2,
        "00000000000000000000000000037ff000010000000340000001000000000000",
    ),
    // The head of the first hole.
    (
        29,
        "000000000000000000000000000300000000012f000000000000000000000000",
    ),
    // The dictionary, with the descriptors of two segments; slot 0, where task 1 stands at its call of WAIT.
    (
        1,
        "0000000000000000000000000003c88000004000000000000000000200038000",
    ),
    (
        0,
        "00500125000380000020012c00030000008080060003c8000000800000030000",
    ),
    (
        0,
        "000000000000000000000000000700000000c003000000000000000200030000",
    ),
    (
        0,
        "00000005000100000000000f0001000000001002000000000000000000000000",
    ),
    // Slot 1, where the child has three numbers on its stack.
    (
        13,
        "000000000000000000000000000300000040c0010003c0000010c00000030000",
    ),
    (
        0,
        "0000000000000000000000070000000000000008000000000000000900030000",
    ),
    (
        0,
        "005000010003c000085000000000000000000000000000000000000000000000",
    ),
    // The areas of the two segments.
    (
        13,
        "00000000000000000000000000038000005000a20003b0bfffffffff00030000",
    ),
    (
        0,
        "0000c0030003ae400c5003ab0003ae400f5002ab0003a3ffffffffff00030000",
    ),
    (
        0,
        "0050000100038000002000a30003b207b208b2090003a3ffffffffff00030000",
    ),
    (
        0,
        "002000020003c000041000000000000000000000000000000000000000000000",
    ),
    // S, F, BOSR, LOSR, slot, level and segment.
    (
        15,
        "000000000000000000000000000000e9000000e5000000e40000012301030003",
    ),
    // Place, dictionary, its entries, stacks, 64 words a stack, the peak; the display.
    (
        0,
        "000100000000a00002000000a400400200000000000000a0000000a5000000e5",
    ),
    // The parent may not leave the mark at 1.
    (
        3,
        "0000000000000000000000000000000000010000000000000000000000000000",
    ),
    // Areas; four links, of two chains of a sector and of two free ones; a quantum of 2; 13 operators were made.
    (
        7,
        "0000017000000124000000040000000100000002000000000000000000000002",
    ),
    // The turn, the last task, the running row, the next switch; one switch.
    (
        0,
        "000000000000000d000000010100000002010000000100000001000000000000",
    ),
    // Its count, job and task; one job: its name A, dictionary, two segments, no data row, the limit of 1,000.
    (
        0,
        "00070100000001000000010141000000a00002000000000000000003e8000000",
    ),
    // What it made, its next task, one number for READ, which wasn't read; two rows.
    (
        0,
        "000000000d0000000300000001fffffffffffffffb0000000000000002010000",
    ),
    // Task 1 waits at its cell; its child runs.
    (
        0,
        "000100ff000002000000a5000200020003050100000002010000010000000000",
    ),
    (0, "00000003000004"),
    (0, "?END"),
];

fn put(rt: &impl Abort, text: &mut Bytes, line: &str) {
    text.extend(line.as_bytes()).expect(rt, "memory");
    text.extend(b"\n").expect(rt, "memory");
}

/// The text of such lines.
fn text(rt: &impl Abort, alloc: Global, lines: &[(u32, &str)]) -> Bytes {
    let mut text = Bytes::new(alloc);
    for (zeros, line) in lines {
        for _ in 0..*zeros {
            put(rt, &mut text, ZEROS);
        }
        put(rt, &mut text, line);
    }
    text
}

/// The machine of the image.
fn machine(rt: &impl Abort, alloc: Global) -> Machine {
    let mut source = Tape::new(text(rt, alloc, &LINES), 4096, Numbers::new(alloc));
    read_image(alloc, &mut source, None)
        .ok()
        .expect(rt, "a good image")
}

#[test]
fn core_and_registers_are_read(rt: HostRuntime) {
    let machine = machine(&rt, rt.alloc());
    let regs = machine.cpu.regs;
    let core = &machine.cpu.core;
    assert!(rt; core.size() == 368);
    same(&rt, to_number(core.get(0)), 0x3_4000_0000_0000);
    same(
        &rt,
        (regs.s, regs.stack_size, machine.cpu.display[1]),
        (233, 64, 160),
    );
    let areas = (machine.areas.size, machine.areas.low);
    same(&rt, (areas, machine.sectors.count()), ((368, 292), 4));
}

const NUMBERS: [i64; 1] = [-5];

fn is_job(rt: &impl Abort, job: &JobRow) {
    same(rt, job.name.as_str(), "A");
    same(rt, job.numbers.as_slice(), NUMBERS.as_slice());
}

#[test]
fn tables_are_read(rt: HostRuntime) {
    let tasks = machine(&rt, rt.alloc()).tasks;
    same(&rt, (tasks.quantum, tasks.made, tasks.halt), (2, 13, None));
    let jobs = tasks.jobs.as_slice();
    same(&rt, jobs.len(), 1);
    is_job(&rt, nth(&rt, jobs, 0));
    let rows = tasks.rows.as_slice();
    same(&rt, rows.len(), 2);
    let child = nth(&rt, rows, 1);
    same(&rt, (child.parent, child.critical), (0, 1));
    let waits = TaskState::WaitsAt {
        mark: 165,
        offset: 2,
    };
    same(&rt, nth(&rt, rows, 0).state, waits);
}

/// Whether the image of a machine is printed.
fn is_printed(machine: &Machine, printer: &mut Paper) -> bool
    requires { machine.now.tasks.printed ≡ 0 }
{
    write_image(machine, printer).is_ok()
}

/// Prints the image of a machine of which no line is printed in part.
fn print(rt: &impl Abort, machine: &Machine, printer: &mut Paper) {
    assert!(rt; machine.tasks.printed == 0);
    same(rt, is_printed(machine, printer), true);
}

fn are_lines(rt: &impl Abort, alloc: Global, bytes: &[u8]) {
    same(rt, bytes, text(rt, alloc, &LINES).as_slice());
}

#[test]
fn the_image_is_printed_again(rt: HostRuntime) {
    let mut printer = paper_of(&rt, rt.alloc(), 8000, 0);
    print(&rt, &machine(&rt, rt.alloc()), &mut printer);
    are_lines(&rt, rt.alloc(), printer.bytes());
}
