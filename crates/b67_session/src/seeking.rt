//! Whether what a search seeks holds of the operator that is about to be made.

ghost use Rattle.b67_session.specs.declared.seeking.Sought.TheVariants as sought;
ghost use Rattle.std.specs.Prelude.{◌≡◌, ◌≢◌, ◌<◌, ◌≤◌, ◌+◌, ◌-◌, ℕ, List, length, Option, option_map, true, false};
ghost use Rattle.b67_lemmas.specs.Lists.{Has};
ghost use Rattle.b67_model.specs.Run.{after};
ghost use Rattle.b67_model.specs.Schedule.{Session};
ghost use Rattle.b67_model.specs.State.{Task, SessionJob, height};
ghost use Rattle.b67_stack.specs.MachineView.{MachineView};
ghost use Rattle.b67_stack.specs.Represents.{Storage, Represents};
ghost use Rattle.b67_stack.specs.Stacks.{Activation, stack_words, mark_place};
ghost use Rattle.b67_layout.specs.Placement.{Placement};
ghost use Rattle.b67_layout.specs.Session.{IsRunning};
ghost use Rattle.b67_law.specs.Turns.{IsNext};
ghost use Rattle.b67_task.specs.Counted.{choice_of};
ghost use Rattle.b67_task.specs.Chosen.{IsReadyAt};
ghost use Rattle.b67_task.specs.Turns.{WaitsOn, WaitsInOne};
ghost use Rattle.b67_session.specs.Closing.{StandsChosen, ChoseSome};
ghost use Rattle.b67_session.specs.Slices.{StandsAt};
ghost use Rattle.b67_session.specs.Steps.{IsInOrderFor};
ghost use Rattle.b67_session.specs.declared.seeking.Depth.{Depth};
ghost use Rattle.b67_session.specs.Search.{IsSought, stands_at, mark_height, Deepens, HasNoted};

use b67_ctl::{Regs, Toscw};
use b67_stack::Cpu;
use b67_task::{Chosen, Machine, Tasks, choose};
use b67_word::Place;

/// A place in the code of a job: the displacement of a segment in the dictionary, and a place in that segment.
#[derive(Clone, Copy, Debug, PartialEq, Eq)]
pub struct CodePlace {
    pub job: u8,
    pub segment: u16,
    pub place: Place,
}

/// What is sought of the operator that is about to be made: it stands at one of some places; another task makes it than made the
/// one before; the task of this job and number makes it, and its topmost mark stands at this height or lower, in words from the
/// base of its stack; or the stack of the task that makes it is the highest of all.
#[derive(Clone, Copy, Debug, PartialEq, Eq)]
pub enum Sought {
    Place,
    Switch,
    Within { job: u8, number: u32, height: u32 },
    Deepest,
}

/// The highest stack that was seen: the count of operators at which it stood so high, and how many words stood over its base.
#[derive(Clone, Copy, Debug, PartialEq, Eq)]
pub struct Depth {
    pub made: u64,
    pub top: u32,
}

/// How far the top word and the topmost mark of a stack stand over its base.
#[derive(Clone, Copy, Debug, PartialEq, Eq)]
pub(crate) struct Heights {
    pub top: u32,
    pub mark: u32,
}

/// Whether two places are one.
#[inline(always)]
fn is_same(a: CodePlace, b: CodePlace) -> bool
    ensures same { result ≡ true → a ≡ b }
    ensures other { result ≡ false → a ≢ b }
{
    a.job == b.job
        && a.segment == b.segment
        && a.place.word == b.place.word
        && a.place.syllable == b.place.syllable
}

/// Whether it is among these places.
fn is_among(places: &[CodePlace], at: CodePlace) -> bool
    ensures holds { result ≡ true → Has places.now at }
    ensures fails { result ≡ false → Has places.now at → ⊥ }
{
    let mut left = places;
    'place: while let [first, more @ ..] = left {
        if is_same(*first, at) {
            return true;
        }
        left = more;
    }
    false
}

/// Where the chosen task stands: its registers tell that if they are in use, else its row.
#[inline(always)]
fn place_of(machine: &Machine, chosen: Chosen) -> CodePlace
    requires { chosen.row < length machine.now.tasks.rows.items }
    ensures { (said : Option (List (List ℕ))) (s : Session) (m : SessionJob) (t : Task) (n : IsNext s m t) → StandsAt said machine.now s → n.chosen ≡ choice_of chosen
        → IsReadyAt machine.now.tasks.rows.items chosen.row (choice_of chosen).who → result ≡ stands_at m t }
{
    let row = machine.tasks.rows[chosen.row as usize];
    if machine.tasks.running == chosen.row {
        return CodePlace {
            job: row.job,
            segment: machine.cpu.regs.segment,
            place: machine.cpu.regs.place,
        };
    }
    CodePlace {
        job: row.job,
        segment: row.segment,
        place: row.place,
    }
}

/// How high the registers say that the stack is.
#[inline(always)]
pub(crate) fn heights_here(regs: &Regs) -> Heights
    ensures top { result.top ≡ regs.now.s - regs.now.bosr }
    ensures mark { result.mark ≡ regs.now.f - regs.now.bosr }
{
    Heights {
        top: regs.s.saturating_sub(regs.bosr),
        mark: regs.f.saturating_sub(regs.bosr),
    }
}

/// How high the stack in a slot is, whose task waits: the word at its base tells.
fn heights_waiting(cpu: &Cpu, slot: u8) -> Heights
    requires { WaitsInOne cpu.now.core cpu.now.regs slot }
    ensures { (x : Storage) (p : MachineView) (stack : List Activation) → Represents x cpu.now.core cpu.now.regs p → WaitsOn p slot stack
        → (result.top ≡ stack_words stack) × (result.mark ≡ mark_place stack) }
{
    let _size = cpu.core.size();
    let regs = cpu.regs;
    let base = regs.stacks + u32::from(slot) * u32::from(regs.stack_size);
    let word = Toscw::read(cpu.core.get(base));
    Heights {
        top: u32::from(word.s),
        mark: u32::from(word.f),
    }
}

/// How high the stack of the chosen task is: its registers tell that if they are in use, else the word at the stack's base.
fn heights_of(machine: &Machine, chosen: Chosen) -> Heights
    requires { ChoseSome machine.now chosen }
    ensures { (x : Storage) (told : Option (List (List ℕ))) (plan : Placement) (s : Session) (m : SessionJob) (t : Task) → StandsChosen x told machine.now plan s m t chosen
        → (result.top + 1 ≡ height t.frames) × (result.mark ≡ mark_height t) }
{
    if machine.tasks.running == chosen.row {
        return heights_here(&machine.cpu.regs);
    }
    let row = machine.tasks.rows[chosen.row as usize];
    heights_waiting(&machine.cpu, row.slot)
}

/// Whether the chosen task made the last operator.
#[inline(always)]
fn is_last(tasks: &Tasks, chosen: Chosen) -> bool
    ensures same { result ≡ true → (chosen.job ≡ tasks.now.last_job) × (chosen.number ≡ tasks.now.last_number) }
    ensures other { result ≡ false → chosen.job ≡ tasks.now.last_job → chosen.number ≢ tasks.now.last_number }
{
    chosen.job == tasks.last_job && chosen.number == tasks.last_number
}

/// Whether the chosen task is this one, and its topmost mark stands at this height or lower.
#[inline(always)]
fn is_within(machine: &Machine, chosen: Chosen, job: u8, number: u32, height: u32) -> bool
    requires { ChoseSome machine.now chosen }
    ensures holds { (x : Storage) (told : Option (List (List ℕ))) (plan : Placement) (s : Session) (m : SessionJob) (t : Task) → StandsChosen x told machine.now plan s m t chosen → result ≡ true
        → (chosen.job ≡ job) × (chosen.number ≡ number) × (mark_height t ≤ height) }
    ensures fails { (x : Storage) (told : Option (List (List ℕ))) (plan : Placement) (s : Session) (m : SessionJob) (t : Task) → StandsChosen x told machine.now plan s m t chosen → result ≡ false
        → chosen.job ≡ job → chosen.number ≡ number → mark_height t ≤ height → ⊥ }
{
    if chosen.job != job {
        return false;
    }
    if chosen.number != number {
        return false;
    }
    if heights_of(machine, chosen).mark > height {
        return false;
    }
    true
}

/// Whether the last task is this one, and the topmost mark of the registers stands at this height or lower.
#[inline(always)]
fn is_last_within(machine: &Machine, job: u8, number: u32, height: u32) -> bool
    ensures { result ≡ false → machine.now.tasks.last_job ≡ job → machine.now.tasks.last_number ≡ number → machine.now.cpu.regs.f - machine.now.cpu.regs.bosr ≤ height → ⊥ }
{
    if machine.tasks.last_job != job {
        return false;
    }
    if machine.tasks.last_number != number {
        return false;
    }
    if heights_here(&machine.cpu.regs).mark > height {
        return false;
    }
    true
}

/// Whether what is sought holds of the session that the machine represents.
#[inline(always)]
pub(crate) fn is_sought(machine: &Machine, what: Sought, places: &[CodePlace]) -> bool
    requires stands { IsInOrderFor machine.now }
    ensures holds { (said : Option (List (List ℕ))) (s : Session) → StandsAt said machine.now s → result ≡ true → IsSought what places.now s }
    ensures fails { (said : Option (List (List ℕ))) (s : Session) → StandsAt said machine.now s → result ≡ false → IsSought what places.now s → ⊥ }
{
    let chosen = match choose(&machine.tasks) {
        Some(chosen) => chosen,
        None => return false,
    };
    match what {
        Sought::Place => is_among(places, place_of(machine, chosen)),
        Sought::Switch => !is_last(&machine.tasks, chosen),
        Sought::Within {
            job,
            number,
            height,
        } => is_within(machine, chosen, job, number, height),
        Sought::Deepest => false,
    }
}

/// Whether the next operator isn't sought, if the last task makes it and the registers are its own.
#[inline(always)]
pub(crate) fn is_elsewhere(machine: &Machine, what: Sought, places: &[CodePlace]) -> bool
    ensures { result ≡ true → (said : Option (List (List ℕ))) (s : Session) (m : SessionJob) (t : Task) (n : IsNext s m t) (h : StandsAt said machine.now s) → n.chosen.who ≡ s.last
        → IsRunning h.plan s.jobs m t → IsSought what places.now s → ⊥ }
{
    let tasks = &machine.tasks;
    match what {
        Sought::Place => !is_among(
            places,
            CodePlace {
                job: tasks.last_job,
                segment: machine.cpu.regs.segment,
                place: machine.cpu.regs.place,
            },
        ),
        Sought::Switch => true,
        Sought::Within {
            job,
            number,
            height,
        } => !is_last_within(machine, job, number, height),
        Sought::Deepest => true,
    }
}

/// Whether a search that looks at counts from `from` on has found what it seeks after so many steps.
#[inline(always)]
pub(crate) fn is_found(
    machine: &Machine,
    what: Sought,
    places: &[CodePlace],
    from: u64,
    made: u64,
) -> bool
    requires stands { IsInOrderFor machine.now }
    ensures later { result ≡ true → from ≤ made }
    ensures holds { (said : Option (List (List ℕ))) (s : Session) → StandsAt said machine.now s → result ≡ true → IsSought what places.now s }
    ensures fails { (said : Option (List (List ℕ))) (s : Session) → StandsAt said machine.now s → result ≡ false → from ≤ made → IsSought what places.now s → ⊥ }
{
    if made < from {
        return false;
    }
    is_sought(machine, what, places)
}

/// The higher of two stacks, the first one if the second isn't higher.
#[inline(always)]
fn deeper(best: Option<Depth>, seen: Depth) -> Option<Depth>
    ensures { Deepens best seen result }
{
    match best {
        Some(depth) => {
            if depth.top < seen.top {
                return Some(seen);
            }
            Some(depth)
        }
        None => Some(seen),
    }
}

/// Notes a stack of so many words over its base, if the deepest is sought.
#[inline(always)]
pub(crate) fn noted(what: Sought, best: Option<Depth>, seen: Depth) -> Option<Depth>
    ensures deepest { what ≡ sought.Deepest → Deepens best seen result }
    ensures other { what ≢ sought.Deepest → result ≡ best }
{
    match what {
        Sought::Place => best,
        Sought::Switch => best,
        Sought::Within {
            job: _job,
            number: _number,
            height: _height,
        } => best,
        Sought::Deepest => deeper(best, seen),
    }
}

/// Notes the stack of the chosen task after so many steps, from `from` on, if the deepest is sought.
#[inline(always)]
pub(crate) fn note_chosen(
    machine: &Machine,
    what: Sought,
    from: u64,
    made: u64,
    best: Option<Depth>,
) -> Option<Depth>
    requires stands { IsInOrderFor machine.now }
    ensures { (said : Option (List (List ℕ))) (start s : Session) → StandsAt said machine.now s → after made start ≡ s
        → HasNoted what from made start best → HasNoted what from (made + 1) start result }
{
    if made < from {
        return best;
    }
    match what {
        Sought::Place => best,
        Sought::Switch => best,
        Sought::Within {
            job: _job,
            number: _number,
            height: _height,
        } => best,
        Sought::Deepest => match choose(&machine.tasks) {
            Some(chosen) => deeper(
                best,
                Depth {
                    made,
                    top: heights_of(machine, chosen).top,
                },
            ),
            None => best,
        },
    }
}

/// The count at which the highest stack was seen.
#[inline(always)]
pub(crate) fn count_of(best: Option<Depth>) -> Option<u64>
    ensures { result ≡ option_map (λ (d : Depth). d.made) best }
{
    match best {
        Some(depth) => Some(depth.made),
        None => None,
    }
}
