//! The operator at which a reader stands, with the arrays given back of an activation record that it leaves.

ghost use Rattle.std.specs.Prelude.{◌≡◌, ◌≢◌};
ghost use Rattle.b67_stack.specs.declared.Step.TheVariants.{Done};
ghost use Rattle.b67_exec.specs.Near.{ReaderBehind, StopsHere};
ghost use Rattle.b67_exec.specs.declared.apart.Went.TheVariants.{On, Not};
ghost use Rattle.b67_task.specs.Runs.{RunsTask, Keeps};
ghost use Rattle.b67_session.specs.Makes.{MakesInSegment, ForEachReady};

use b67_exec::{Made, Reader, Went, operate};
use b67_stack::Step;
use b67_task::{Machine, release};

/// Makes the operator at the running place, at which the reader stands. Where it leaves an activation record, the areas and
/// chains of that record's arrays are given back. Where the task goes on in the segment the reader then stands there. At `Not`
/// nothing is changed, and `why` is the reason.
#[inline(always)]
pub fn make_next(machine: &mut Machine, reader: &mut Reader, why: &mut Step) -> Went
    requires runs { RunsTask machine.old }
    requires stands { ReaderBehind machine.old.cpu reader.old 0 }
    ensures row { result ≢ Not → ForEachReady machine.old (λ x told plan s m t. MakesInSegment x told plan s m t Done machine.old machine.new) }
    ensures rest { result ≡ Not → machine.new ≡ machine.old }
    ensures why { result ≡ Not → StopsHere machine.old.cpu why.new }
    ensures stands { result ≡ On → ReaderBehind machine.new.cpu reader.new 0 }
    ensures keeps { Keeps machine.old machine.new }
    ensures tasks { machine.new.tasks ≡ machine.old.tasks }
{
    match operate(&mut machine.cpu, reader, why) {
        Made::On => Went::On,
        Made::Away => Went::Away,
        Made::Left(high) => {
            let low = machine.cpu.regs.s + 1;
            release(machine, low, high);
            Went::Away
        }
        Made::Not => Went::Not,
    }
}
