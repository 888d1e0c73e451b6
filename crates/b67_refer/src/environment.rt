//! The running environment, and the display that shows it.

ghost use Rattle.std.specs.Prelude.{◌≡◌, ℕ, ◌+◌, ◌*◌, ◌<◌, ◌≤◌, ◌^◌, Some, slice_get};
ghost use Rattle.b67_ctl.specs.declared.marks.Mscw.{Mscw};
ghost use Rattle.b67_ctl.specs.Layout.{mscw_word, IsMscw};
ghost use Rattle.b67_model.specs.Environment.{running as running_frame};
ghost use Rattle.b67_stack.specs.Stacks.{StackPlace};
ghost use Rattle.b67_layout.specs.Placement.{base_of as base_of_stack, address_of as address_of_spot};
ghost use Rattle.b67_layout.specs.Session.{frame_address};
ghost use Rattle.b67_refer.specs.RunningContext.{RunningContext, LiveContext, IsShown, IsStackOf};
ghost use Rattle.b67_refer.specs.Displays.{HoldsEnvironment, ShowsAbove, EntersOver};

use b67_core::Core;
use b67_ctl::{MCP_STACK, Mscw, Regs, SLOTS};

/// The mark at an address.
#[inline(always)]
pub(crate) fn mark_at(core: &Core, at: u32) -> Mscw
    requires { (m : Mscw) × IsMscw m × (slice_get core.now at ≡ Some (mscw_word m)) }
    ensures { (m : Mscw) → IsMscw m → slice_get core.now at ≡ Some (mscw_word m) → result ≡ m }
{
    Mscw::read(core.get(at))
}

/// The core address of a stack's base word: a slot's, the running job's dictionary's or the MCP's.
#[inline(always)]
fn base_of(core: &Core, regs: &Regs, stack: u16) -> u32
    requires { (a : LiveContext core.now regs.now) × IsStackOf a stack }
    ensures value { (a : LiveContext core.now regs.now) → IsStackOf a stack → result ≡ base_of_stack a.plan stack }
    ensures small { result < 2 ^ 20 }
{
    if stack < u16::from(SLOTS) {
        regs.stacks + u32::from(stack) * u32::from(regs.stack_size)
    } else if stack < MCP_STACK {
        regs.dict
    } else {
        0
    }
}

/// The core address of a displacement in a stack.
#[inline(always)]
pub(crate) fn address_of(core: &Core, regs: &Regs, stack: u16, disp: u16) -> u32
    requires { (a : LiveContext core.now regs.now) × IsStackOf a stack }
    ensures { (a : LiveContext core.now regs.now) → IsStackOf a stack → result ≡ address_of_spot a.plan (record { stack = stack; disp = disp }) }
{
    base_of(core, regs, stack) + u32::from(disp)
}

/// The address of the running activation record's mark.
#[inline(always)]
fn running(core: &Core, regs: &Regs) -> u32
    requires { RunningContext core.now regs.now }
    ensures { (a : RunningContext core.now regs.now) → result ≡ frame_address a.plan a.member a.task (running_frame a.task.frames).identity }
{
    let mut at = regs.f;
    'down: loop {
        let m = mark_at(core, at);
        if m.entered {
            return at;
        }
        at -= u32::from(m.back);
    }
}

/// Writes the display: at each level up to the running one, the address of the activation record that the running
/// environment has there. Level 1 is the job's dictionary and level 0 the MCP, in each environment.
#[inline(always)]
pub fn rebuild(core: &Core, regs: &Regs, display: &mut [u32; 32])
    requires { RunningContext core.now regs.now }
    ensures { (a : RunningContext core.now regs.now) → IsShown a display.new }
{
    let mut at = running(core, regs);
    let mut level = regs.level;
    'out: while level > 2 {
        display[level as usize] = at;
        let m = mark_at(core, at);
        at = address_of(core, regs, m.env_stack, m.env_disp);
        level -= 1;
    }
    display[2] = at;
    display[1] = regs.dict;
    display[0] = 0;
}

/// The core address of a displacement in a slot.
#[inline(always)]
fn address_in_slot(core: &Core, regs: &Regs, slot: u16, disp: u16) -> u32
    requires { (a : LiveContext core.now regs.now) × (slot < a.plan.peak) }
    ensures { result ≡ regs.now.stacks + slot * regs.now.stack_size + disp }
{
    regs.stacks + u32::from(slot) * u32::from(regs.stack_size) + u32::from(disp)
}

/// Goes on with the display, which shows the running environment above a level: `at` is the address of the activation record
/// that the environment has at that level. The display is written from there down to the first level at which it agrees.
/// Up to level `known`, and below the one that is written, it holds an environment, whichever it is.
#[inline(always)]
fn rebuild_down(core: &Core, regs: &Regs, display: &mut [u32; 32], known: u8, level: u8, at: u32)
    requires run { RunningContext core.now regs.now }
    requires low { 2 ≤ level }
    requires known { (up : ℕ) → up ≤ known → up ≤ level → HoldsEnvironment core.now regs.now display.old up }
    requires above { (a : RunningContext core.now regs.now) → ShowsAbove a at level display.old }
    ensures { (a : RunningContext core.now regs.now) → IsShown a display.new }
{
    let mut at = at;
    let mut level = level;
    'out: while level > 2 {
        if level <= known && display[level as usize] == at {
            return;
        }
        display[level as usize] = at;
        let m = mark_at(core, at);
        at = address_in_slot(core, regs, m.env_stack, m.env_disp);
        level -= 1;
    }
    display[2] = at;
}

/// As `rebuild`, where the display holds an environment up to level `known`, whichever it is. It is written from the running
/// level down to the first level at which it agrees: below that it is right already.
#[inline(always)]
pub fn rebuild_known(core: &Core, regs: &Regs, display: &mut [u32; 32], known: u8)
    requires run { RunningContext core.now regs.now }
    requires known { HoldsEnvironment core.now regs.now display.old known }
    ensures { (a : RunningContext core.now regs.now) → IsShown a display.new }
{
    let at = running(core, regs);
    rebuild_down(core, regs, display, known, regs.level, at);
}

/// As `rebuild_known`, where the top activation record is entered, and the mark of its environment's record is at an address.
#[inline(always)]
pub fn rebuild_entered(core: &Core, regs: &Regs, display: &mut [u32; 32], known: u8, under: u32)
    requires run { RunningContext core.now regs.now }
    requires known { HoldsEnvironment core.now regs.now display.old known }
    requires top { EntersOver core.now regs.now under }
    ensures { (a : RunningContext core.now regs.now) → IsShown a display.new }
{
    display[regs.level as usize] = regs.f;
    rebuild_down(core, regs, display, known, regs.level - 1, under);
}
