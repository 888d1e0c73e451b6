//! What an operator wants is brought in.

ghost use Rattle.std.specs.Prelude.{◌≡◌, ℕ, ◌+◌, ◌<◌, ◌^◌, List, Option, Err, length};
ghost use Rattle.b67_io.specs.Causes.{Rose};
ghost use Rattle.b67_model.specs.State.{Task, SessionJob};
ghost use Rattle.b67_model.specs.Schedule.{Session};
ghost use Rattle.b67_layout.specs.Orders.{IsInOrderButCounts};
ghost use Rattle.b67_stack.specs.Represents.{Storage};
ghost use Rattle.b67_layout.specs.Machine.{DeviceAfterCalls, PagingKeeps};
ghost use Rattle.b67_layout.specs.Placement.{Placement};
ghost use Rattle.b67_layout.specs.Session.{IsRunning};
ghost use Rattle.b67_backing.specs.declared.SpaceFault.TheVariants.{NoCore, BackingFault};
ghost use Rattle.b67_presence.specs.Bringing.{StandsOver, WantsSome, IsWanted, BringMeets};

use crate::objects::{bring_code, bring_data};
use crate::paging::AbsentObject;
use crate::way::start_of;
use b67_backing::{Backing, SpaceFault};
use b67_stack::What;
use b67_task::{Machine, need};

/// The words of the array that is wanted; 0 for the running segment.
fn words_of(machine: &Machine, absent: What) -> u32
    requires { (told : Option (List (List ℕ))) × WantsSome machine.now told absent }
    ensures small { result < 2 ^ 16 }
    ensures words { (x : Storage) (told : Option (List (List ℕ))) (plan : Placement) (s : Session) (m : SessionJob) (t : Task) (words : ℕ) → IsInOrderButCounts s
        → StandsOver x told machine.now plan s → IsRunning plan s.jobs m t → IsWanted x plan m t absent words → result ≡ words }
{
    match absent {
        What::Code(_) => 0,
        What::Array(original) => AbsentObject::at(&machine.cpu.core, original).words,
    }
}

/// Brings the running segment, or an array that the running task's operator touches, into core; the running segment is
/// then present too. `NoCore`, with nothing changed, exactly if the MCP, dictionaries, stacks, the running segment and
/// that array need more words than core has (`need`). `BackingFull` only if the session takes more sectors than the device
/// has, there was no hole, and a present array without a chain wants more sectors than the free ones, by these two numbers.
/// `BackingFault` only if the device failed. After a refusal the machine represents the same session, with what is wanted
/// or the running segment absent, and the call may be made again, for an array once the running segment is present. If a
/// hole has room, no area moves and nothing is written; an array that was never touched calls no device then. Over a device
/// that doesn't tell what its sectors hold, the words that it gave back may be others, and as many.
pub fn bring<B: Backing>(
    machine: &mut Machine,
    backing: &mut B,
    absent: What,
) -> Result<(), SpaceFault>
    requires wants { WantsSome machine.old (B.holds backing.old) absent }
    requires same { B.size backing.old + 1 ≡ length machine.old.sectors.links }
    ensures keeps { PagingKeeps machine.old.cpu machine.new.cpu machine.old.areas machine.new.areas machine.old.sectors machine.new.sectors }
    ensures tasks { machine.new.tasks ≡ machine.old.tasks }
    ensures row { (x : Storage) (plan : Placement) (s : Session) (m : SessionJob) (t : Task) (words : ℕ) → IsInOrderButCounts s
        → StandsOver x (B.holds backing.old) machine.old plan s → IsRunning plan s.jobs m t → IsWanted x plan m t absent words
        → BringMeets B.holds (B.size backing.old) x plan s m t absent words result machine.old machine.new backing.old backing.new }
    ensures unchanged { (need size : ℕ) → result ≡ Err (NoCore need size) → (machine.new ≡ machine.old) × (backing.new ≡ backing.old) }
    ensures cause { result ≡ Err BackingFault → Rose B.faults backing.old backing.new }
    ensures device { DeviceAfterCalls B.holds B.size B.calls B.faults backing.old backing.new }
{
    let words = words_of(machine, absent);
    let needed = need(machine, 0, words);
    let core = machine.cpu.core.size();
    if needed > core {
        return Err(SpaceFault::NoCore { need: needed, core });
    }
    let start = start_of(machine.tasks.made, core);
    match absent {
        What::Code(displacement) => {
            let code = machine.cpu.regs.dict + u32::from(displacement);
            bring_code(
                &mut machine.cpu,
                &mut machine.areas,
                &mut machine.sectors,
                backing,
                code,
                start,
            )
        }
        What::Array(original) => {
            let code = machine.cpu.regs.dict + u32::from(machine.cpu.regs.segment);
            bring_data(
                &mut machine.cpu,
                &mut machine.areas,
                &mut machine.sectors,
                backing,
                original,
                code,
                start,
            )
        }
    }
}
