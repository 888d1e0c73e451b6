//! The search for copies of a descriptor.

ghost use Rattle.std.specs.Prelude.{◌≡◌, ◌⊎◌, ℕ, ◌+◌, ◌^◌, ◌<◌, ◌≤◌, Some, length, slice_get};
ghost use Rattle.b67_stack.specs.Stacks.{stack_words};
ghost use Rattle.b67_stack.specs.MachineView.{PagedObject, MachineView, slot_base, stack_of};
ghost use Rattle.b67_stack.specs.Represents.{Storage, Represents};
ghost use Rattle.b67_layout.specs.Machine.{IsPresent};
ghost use Rattle.b67_overlay.specs.Turns.{MakesAbsent, TurnsAt, Searched, SpansTurned, Lies};
ghost use Rattle.b67_overlay.specs.Spans.{Families, ShowsFamilies, InSpan, CopiesLie};

use crate::spans::{Span, span_in};
use b67_core::Core;
use b67_ctl::{DataDesc, Regs, Toscw};
use b67_stack::Cpu;
use b67_word::Word;

/// A present copy of the area becomes absent, with the original's address; any other word stays.
fn made_absent(w: Word, area: u32, original: u32) -> Word
    requires { original < 2 ^ 20 }
    ensures { MakesAbsent area original w result }
{
    if w.tag() != 5 || DataDesc::is_original(w) {
        return w;
    }
    match DataDesc::from_word(w) {
        Some(d) => {
            if d.present && d.copy && d.address == area {
                DataDesc {
                    present: false,
                    copy: d.copy,
                    indexed: d.indexed,
                    read_only: d.read_only,
                    length: d.length,
                    address: original,
                }
                .word()
            } else {
                w
            }
        }
        None => w,
    }
}

/// Turns the copies in a part of core.
fn turn_part(core: &mut Core, from: u32, upto: u32, area: u32, original: u32)
    requires order { from ≤ upto }
    requires inside { upto ≤ length core.old }
    requires small { original < 2 ^ 20 }
    ensures size { length core.new ≡ length core.old }
    ensures turned { (i : ℕ) → from ≤ i → i < upto → TurnsAt area original core.old core.new i }
    ensures others { (i : ℕ) → (i < from) ⊎ (upto ≤ i) → slice_get core.new i ≡ slice_get core.old i }
{
    for i in from..upto {
        let w = core.get(i);
        core.set(i, made_absent(w, area, original));
    }
}

/// Turns the copies in a span, if there is one.
fn turn_span(core: &mut Core, span: Option<Span>, area: u32, original: u32)
    requires inside { (s : Span) → span ≡ Some s → s.upto ≤ length core.old }
    requires small { original < 2 ^ 20 }
    ensures size { length core.new ≡ length core.old }
    ensures turned { (i : ℕ) → InSpan span i → TurnsAt area original core.old core.new i }
    ensures others { (i : ℕ) → (InSpan span i → ⊥) → slice_get core.new i ≡ slice_get core.old i }
{
    match span {
        Some(part) => {
            if part.from >= part.upto {
                return;
            }
            turn_part(core, part.from, part.upto, area, original);
        }
        None => {}
    }
}

/// The address of the top word of a slot's stack; where no task lives there, of the slot's base word.
pub fn stack_top(core: &Core, regs: &Regs, k: u8, base: u32) -> u32
    requires { (low : ℕ) × (p : MachineView) × Lies core.now regs.now low p × (k < p.peak) × (base ≡ slot_base p k) }
    ensures { (low : ℕ) (p : MachineView) → Lies core.now regs.now low p → k < p.peak → base ≡ slot_base p k
        → result ≡ base + stack_words (stack_of (p.slots k)) }
{
    if regs.slot == k {
        return regs.s;
    }
    match Toscw::from_word(core.get(base)) {
        Some(top) => base + u32::from(top.s),
        None => base,
    }
}

/// Turns the copies in the span of each slot.
fn search(core: &mut Core, regs: &Regs, area: u32, original: u32)
    requires slots { (low : ℕ) × (p : MachineView) × (f : Families) × Lies core.old regs.now low p × ShowsFamilies core.old p f × (original < low) }
    requires small { original < 2 ^ 20 }
    ensures { (low : ℕ) (p : MachineView) (f : Families) → Lies core.old regs.now low p → ShowsFamilies core.old p f → original < low
        → SpansTurned p f p.peak area original core.old core.new }
{
    for k in 0..regs.peak {
        let span = span_in(core, regs, original, k);
        turn_span(core, span, area, original);
    }
}

/// The search for the copies of the area that a present original holds: every present copy of it, in every stack up to its top,
/// becomes absent and has the original's address. No other word is changed. Of each stack only that part is searched in which
/// a copy can be.
pub fn search_copies(cpu: &mut Cpu, area: u32, original: u32)
    requires { (x : Storage) × (p : MachineView) × (t : PagedObject) × Represents x cpu.old.core cpu.old.regs p × CopiesLie cpu.old.core p × IsPresent x p area t × (t.home ≡ original) }
    ensures rest { cpu.new ≡ record cpu.old { core = cpu.new.core } }
    ensures searched { (x : Storage) (p : MachineView) (t : PagedObject) → Represents x cpu.old.core cpu.old.regs p → CopiesLie cpu.old.core p → IsPresent x p area t → t.home ≡ original
        → Searched p p.peak area original cpu.old.core cpu.new.core }
{
    search(&mut cpu.core, &cpu.regs, area, original);
}
