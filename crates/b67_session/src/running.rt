//! A session that runs.

ghost use Rattle.b67_model.specs.Schedule as schedule;
ghost use Rattle.std.specs.Prelude.{◌≡◌, ◌≢◌, ℕ, ◌+◌, List, Option, None, length};
ghost use Rattle.std.specs.Result.{IsOk};
ghost use Rattle.b67_model.specs.State.{Task, SessionJob};
ghost use Rattle.b67_model.specs.Run.{StepResult};
ghost use Rattle.b67_io.specs.Causes.{Stayed};
ghost use Rattle.b67_law.specs.Turns.{IsNext};
ghost use Rattle.b67_layout.specs.Machine.{Says, content_after};
ghost use Rattle.b67_session.specs.Complete.{SetsOut, Suffices};
ghost use Rattle.b67_session.specs.Slices.{IsOpen, StandsAt, IsLimited, RepresentsWithoutTasks, Slices, IfPresent, Resumes, StaysEnded};
ghost use Rattle.b67_session.specs.Shaped.{SliceLeaves};

use crate::slices::{Progress, slice};
use b67_backing::Backing;
use b67_io::Sink;
use b67_mcp::Stop;
use b67_task::Machine;
use std::marker::Model;

/// A machine whose session is run a slice at a time. It is seen as the machine.
#[derive(Drop)]
pub struct Session {
    machine: Machine,
}

impl Model for Session {
    ghost use Rattle.b67_task.specs.declared.tables.Machine as tables;

    ghost Value = { tables.Machine };

    ghost view = { λ c. c.machine };
}

impl Session {
    /// The session that a machine represents.
    #[inline(always)]
    pub fn of(machine: Machine) -> Self
        ensures { result ≡ machine }
    {
        Session { machine }
    }

    /// The machine that represents the session.
    #[inline(always)]
    pub fn machine(&self) -> &Machine
        ensures { result.now ≡ self.now }
    {
        &self.machine
    }

    /// The machine, of which the session is no longer needed.
    #[inline(always)]
    pub fn into_machine(self) -> Machine
        ensures { result ≡ self }
    {
        self.machine
    }

    /// Makes steps until no task lives, the count of the halt is reached, or `n` were made, looked at in this order; as `slice`
    /// does. It may be called again after every answer, and prints nothing twice. It isn't stopped if core, sectors and devices
    /// suffice for these steps.
    #[inline(always)]
    pub fn slice<B: Backing, K: Sink>(
        &mut self,
        n: u64,
        backing: &mut B,
        paper: &mut K,
    ) -> Result<Progress, Stop>
        requires open { IsOpen (B.holds backing.old) self.old }
        requires sized { B.size backing.old + 1 ≡ length self.old.sectors.links }
        ensures row { (told : Option (List (List ℕ))) (s : schedule.Session) → Says told (B.holds backing.old) → StandsAt told self.old s
            → Slices K.taken (content_after told (B.holds backing.new)) (told ≢ None) (B.size backing.old) n s result self.old self.new paper.old paper.new }
        ensures present { (told : Option (List (List ℕ))) (s : schedule.Session) (m : SessionJob) (t : Task) → Says told (B.holds backing.old) → (h : StandsAt told self.old s) → IsNext s m t
            → IfPresent B.holds (told ≢ None) (length self.old.cpu.core) n h.storage h.plan s m t result self.old self.new backing.old backing.new }
        ensures resumed { (told : Option (List (List ℕ))) (h : schedule.Session) (part : StepResult) → Says told (B.holds backing.old) → IsLimited told self.old h part
            → Resumes B.holds K.taken told (content_after told (B.holds backing.new)) (B.size backing.old) n h part result self.old self.new backing.old backing.new paper.old paper.new }
        ensures ended { (told : Option (List (List ℕ))) (s : schedule.Session) → RepresentsWithoutTasks told self.old s
            → StaysEnded result self.old self.new backing.old backing.new paper.old paper.new }
        ensures complete { (told : Option (List (List ℕ))) (s : schedule.Session) → told ≢ None → Says told (B.holds backing.old) → SetsOut told self.old s
            → Suffices (length self.old.cpu.core) (B.size backing.old) n self.old.tasks s → Stayed B.faults backing.old backing.new → Stayed K.faults paper.old paper.new
            → IsOk result }
        ensures leaves { SliceLeaves B.holds B.size B.calls B.faults K.faults result self.old self.new backing.old backing.new paper.old paper.new }
    {
        slice(&mut self.machine, n, backing, paper)
    }
}
