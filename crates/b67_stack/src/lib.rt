//! The machine's registers over core, and the running stack: push, pop, mark and cut. A view says what stands where, and not
//! what is present; each call promises the view that is left.
//!
//! For all over core: `Cpu`, `Step`, the definitions `Represents` and `MachineView`; `push`, `pop`, `mark`, `cut` (`stands`).
//!
//! Begin with the definition `Represents` (`specs/Represents`), then `push` and its clause `stands`.
#![tactic(auto)]

ghost use Rattle.std.specs.Prelude.{◌≡◌, ◌≢◌, ◌↔◌, ℕ, ◌+◌, ◌-◌, ◌<◌, ◌≤◌, IsErr, IsOk, OnOk, OnErr, IfOk, [], ◌∷◌, List, length, slice_get, Some};
ghost use Rattle.b67_stack.specs.Shapes.{Shape, Fits};
ghost use Rattle.b67_stack.specs.Stacks.{Activation, stack_level, top_mark as top_mark_of};
ghost use Rattle.b67_stack.specs.MachineView.{MachineView, RunsOn, NoOriginalAboveTop};
ghost use Rattle.b67_stack.specs.Represents.{Storage, Represents};
ghost use Rattle.b67_stack.specs.Changes.{Runs, pushed, popped, marked, topped, top_cells, stack_with_cells, without_first, activations_below, new_mark, with_stack, MayPush};

mod fits;

use b67_core::Core;
use b67_ctl::{Mscw, Rcw, Regs, SLOTS};
use b67_word::{Fault, Word};

/// Core with its registers, the display (the address of the activation record of each level up to the running one), and
/// for each slot the displacement of the topmost mark that a live task depends on, 0 for none.
#[derive(Drop)]
pub struct Cpu {
    pub core: Core,
    pub regs: Regs,
    pub display: [u32; 32],
    pub critical: [u16; SLOTS as usize],
}

/// What an operator found absent: the segment of a displacement in the dictionary, or the array whose original has a
/// core address.
#[derive(Clone, Copy, Debug, PartialEq, Eq)]
pub enum What {
    Code(u16),
    Array(u32),
}

/// What an operator answered: it was made, or nothing was changed since something is absent, an intrinsic is called, it
/// faults, or it leaves the task's outermost activation record.
#[derive(Clone, Copy, Debug, PartialEq, Eq)]
pub enum Step {
    Done,
    Absent(What),
    Call(u8),
    Fault(Fault),
    Ended,
}

/// The number in [`Step::Call`] where a fetch ended at a procedure: the caller enters it.
pub const PROCEDURE: u8 = 255;

/// The stack is as high as its slot.
#[derive(Clone, Copy, Debug, PartialEq, Eq)]
pub struct StackOverflow {}

/// The top activation record has no cell.
#[derive(Clone, Copy, Debug, PartialEq, Eq)]
pub struct StackUnderflow {}

impl Cpu {
    /// The mark of the top activation record.
    #[inline(always)]
    pub fn top_mark(&self) -> Mscw
        requires { Runs self.now }
        ensures { (x : Storage) (p : MachineView) (stack : List Activation) → Represents x self.now.core self.now.regs p
            → RunsOn p self.now.regs.slot stack → result ≡ top_mark_of self.now.regs.slot stack }
    {
        Mscw::read(self.core.get(self.regs.f))
    }

    /// Whether the top activation record is entered.
    #[inline(always)]
    pub fn is_top_entered(&self) -> bool
        requires { Runs self.now }
        ensures { (x : Storage) (p : MachineView) (stack : List Activation) → Represents x self.now.core self.now.regs p
            → RunsOn p self.now.regs.slot stack → result ≡ (top_mark_of self.now.regs.slot stack).entered }
    {
        Mscw::is_entered(self.core.get(self.regs.f))
    }

    /// The running level without the top activation record.
    fn level_below(&self) -> u8
        requires { Runs self.now }
        ensures { (x : Storage) (p : MachineView) (stack : List Activation) → Represents x self.now.core self.now.regs p
            → RunsOn p self.now.regs.slot stack → result ≡ stack_level (activations_below stack) }
    {
        if !self.top_mark().entered {
            return self.regs.level;
        }
        Rcw::read(self.core.get(self.regs.f + 1)).level
    }

    /// Puts a word on the stack, where there is room.
    pub fn put(&mut self, w: Word)
        requires { self.old.regs.s + 1 < length self.old.core }
        ensures { self.new ≡ pushed self.old w }
    {
        let _size = self.core.size();
        let top = self.regs.s + 1;
        self.core.set(top, w);
        self.regs.s = top;
    }

    /// Puts a word on the stack. Refused, with nothing changed, exactly if the stack's top is its slot's last word.
    #[inline]
    pub fn push(&mut self, w: Word) -> Result<(), StackOverflow>
        requires { Runs self.old }
        ensures full { IsErr result ↔ (self.old.regs.s ≡ self.old.regs.losr) }
        ensures ok { OnOk result (self.new ≡ pushed self.old w) }
        ensures err { OnErr result (self.new ≡ self.old) }
        ensures stands { OnOk result ((x : Storage) (p : MachineView) (stack : List Activation) (c : Shape) → Represents x self.old.core self.old.regs p
            → RunsOn p self.old.regs.slot stack → NoOriginalAboveTop p → MayPush p.objects c → Fits x.held c (self.old.regs.s + 1) w
            → Represents x self.new.core self.new.regs (with_stack p self.old.regs.slot (stack_with_cells stack (c ∷ top_cells stack)))) }
    {
        if self.regs.s == self.regs.losr {
            return Err(StackOverflow {});
        }
        self.core.set(self.regs.s + 1, w);
        self.regs.s += 1;
        Ok(())
    }

    /// Takes a word off the stack. Refused, with nothing changed, exactly if the top activation record has no cell.
    pub fn pop(&mut self) -> Result<Word, StackUnderflow>
        requires { Runs self.old }
        ensures empty { (x : Storage) (p : MachineView) (stack : List Activation) → Represents x self.old.core self.old.regs p
            → RunsOn p self.old.regs.slot stack → IsErr result ↔ (top_cells stack ≡ []) }
        ensures ok { IfOk result (λ w. (slice_get self.old.core self.old.regs.s ≡ Some w) × (self.new ≡ popped self.old)) }
        ensures err { OnErr result (self.new ≡ self.old) }
        ensures stands { OnOk result ((x : Storage) (p : MachineView) (stack : List Activation) → Represents x self.old.core self.old.regs p
            → RunsOn p self.old.regs.slot stack
            → Represents x self.new.core self.new.regs (with_stack p self.old.regs.slot (stack_with_cells stack (without_first (top_cells stack))))) }
    {
        let m = self.top_mark();
        if self.regs.s == self.regs.f + u32::from(m.entered) {
            return Err(StackUnderflow {});
        }
        let w = self.core.get(self.regs.s);
        self.regs.s -= 1;
        Ok(w)
    }

    /// Puts a mark on the stack, linked to the last one. Refused, with nothing changed, exactly if the stack's top is
    /// its slot's last word.
    #[inline]
    pub fn mark(&mut self) -> Result<(), StackOverflow>
        requires { Runs self.old }
        ensures full { IsErr result ↔ (self.old.regs.s ≡ self.old.regs.losr) }
        ensures ok { OnOk result (self.new ≡ marked self.old) }
        ensures err { OnErr result (self.new ≡ self.old) }
        ensures stands { OnOk result ((x : Storage) (p : MachineView) (stack : List Activation) → Represents x self.old.core self.old.regs p
            → RunsOn p self.old.regs.slot stack → NoOriginalAboveTop p
            → Represents x self.new.core self.new.regs (with_stack p self.old.regs.slot (new_mark ∷ stack))) }
    {
        let m = Mscw {
            far: false,
            entered: false,
            env_stack: 0,
            env_disp: 0,
            value: false,
            level: 0,
            back: (self.regs.s + 1 - self.regs.f) as u16,
        };
        match self.push(m.word()) {
            Ok(()) => {
                self.regs.f = self.regs.s;
                Ok(())
            }
            Err(full) => Err(full),
        }
    }

    /// Drops the top activation record, of two or more. The running level is that of the record that then runs; place,
    /// segment and display are the caller's.
    pub fn cut(&mut self)
        requires { (x : Storage) × (p : MachineView) × (stack : List Activation) × Represents x self.old.core self.old.regs p
            × RunsOn p self.old.regs.slot stack × (activations_below stack ≢ []) }
        ensures row { (x : Storage) (p : MachineView) (stack : List Activation) → Represents x self.old.core self.old.regs p
            → RunsOn p self.old.regs.slot stack → activations_below stack ≢ [] → self.new ≡ topped self.old (activations_below stack) }
        ensures stands { (x : Storage) (p : MachineView) (stack : List Activation) → Represents x self.old.core self.old.regs p
            → RunsOn p self.old.regs.slot stack → activations_below stack ≢ []
            → Represents x self.new.core self.new.regs (with_stack p self.old.regs.slot (activations_below stack)) }
    {
        let m = self.top_mark();
        self.regs.level = self.level_below();
        self.regs.s = self.regs.f - 1;
        self.regs.f -= u32::from(m.back);
    }
}
