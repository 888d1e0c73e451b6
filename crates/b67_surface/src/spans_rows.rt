//! Where copies can be, over a core made by hand.

ghost use Rattle.std.specs.Prelude.{◌≡◌, ◌<◌, ℕ, IfOk};
ghost use Rattle.b67_overlay.specs.Examples.{IsFamily};

use crate::given::same;
use b67_core::Core;
use b67_ctl::{Regs, Toscw};
use b67_overlay::{Span, search_span};
use b67_stack::Cpu;
use b67_word::{Place, Word};
use std::alloc::{AllocError, Global};
use std::process::Abort;

/// The dictionaries of two jobs, of two entries and of one, and five slots of 16 words from word 167 on. In slot 0 the first
/// task of job 1 runs, on 8 words. In slot 1 its child waits, on 5 words; in slot 2 the first task of job 2, on 3 words; in
/// slot 3 the child of the task in slot 1, on 2 words. Slot 4 is free.
fn family(alloc: Global) -> Result<Cpu, AllocError>
    ensures { IfOk result IsFamily }
{
    let mut core = Core::new(alloc, 256)?;
    core.set(32, Word::of(3, 0x7ff0_0001_0000));
    core.set(33, Word::of(3, 0x4000_0001_0000));
    core.set(34, Word::of(3, 0x7ff0_0002_0000));
    core.set(35, Word::of(3, 0x4010_0001_0000));
    core.set(161, Word::of(0, 2));
    core.set(165, Word::of(0, 1));
    core.set(
        183,
        Toscw {
            s: 5,
            level: 2,
            f: 1,
        }
        .word(),
    );
    core.set(
        199,
        Toscw {
            s: 3,
            level: 2,
            f: 1,
        }
        .word(),
    );
    core.set(
        215,
        Toscw {
            s: 2,
            level: 2,
            f: 1,
        }
        .word(),
    );
    Ok(Cpu {
        core,
        regs: Regs {
            s: 175,
            f: 168,
            bosr: 167,
            losr: 182,
            slot: 0,
            level: 2,
            segment: 2,
            place: Place {
                word: 0,
                syllable: 0,
            },
            dict: 160,
            entries: 2,
            stacks: 167,
            stack_size: 16,
            peak: 5,
        },
        display: [0; 32],
        critical: [0; 120],
    })
}

/// The span of an original in each of the five slots: from where, up to where, or None.
fn spans_are(rt: &impl Abort, cpu: &Cpu, original: u32, spans: [Option<Span>; 5])
    requires family { IsFamily cpu.now }
    requires inside { original < 247 }
{
    for slot in 0..5u8 {
        same(rt, search_span(cpu, original, slot), spans[slot as usize]);
    }
}

fn span(from: u32, upto: u32) -> Option<Span> {
    Some(Span { from, upto })
}

#[test]
fn spans_are_where_copies_can_be(rt: HostRuntime) {
    let Ok(cpu) = family(rt.alloc()) else {
        panic!(rt; "memory")
    };
    let parent = span(168, 176);
    let child = span(184, 189);
    let other = span(200, 203);
    let grandchild = span(216, 218);
    // The last entry of each dictionary, then a word of each stack.
    spans_are(&rt, &cpu, 163, [parent, child, None, grandchild, None]);
    spans_are(&rt, &cpu, 166, [None, None, other, None, None]);
    spans_are(
        &rt,
        &cpu,
        171,
        [span(172, 176), child, None, grandchild, None],
    );
    spans_are(
        &rt,
        &cpu,
        186,
        [None, span(187, 189), None, grandchild, None],
    );
    spans_are(&rt, &cpu, 201, [None, None, span(202, 203), None, None]);
    spans_are(&rt, &cpu, 216, [None, None, None, span(217, 218), None]);
}
