//! Steps from the machine of an image, and the image of the machine then.

ghost use Rattle.b67_task.specs.declared.tables.Machine as machine;
ghost use Rattle.std.specs.Prelude.{◌≡◌, ◌+◌, length, Some, None, Ok, Err};
ghost use Rattle.b67_layout.specs.Machine.{DeviceAfterCalls};
ghost use Rattle.b67_model.specs.Schedule.{Session};
ghost use Rattle.b67_session.specs.Slices.{StandsAt};
ghost use Rattle.b67_task.specs.Tables.{AreCountable};
ghost use Rattle.b67_job.specs.Device.{device_of};
ghost use Rattle.b67_job.specs.Going.{HasGoneOn};
ghost use Rattle.b67_job.specs.Passed.{AreTyped, parts_of};
ghost use Rattle.b67_job.specs.Stepping.{halted_there, StepsTo, StepsFromImage};

use crate::runs::finish;
use crate::summaries::Closing;
use crate::top::refuse_image;
use b67_backing::Backing;
use b67_image::{machine_is_typed, read_image};
use b67_io::{Sink, Source};
use b67_session::{Progress, Stop, slice};
use b67_task::Machine;
use std::alloc::Global;

/// The same answer, and that a run halts where all its steps were made.
fn halted_there(answered: Result<Progress, Stop>) -> Result<Progress, Stop>
    ensures { result ≡ halted_there answered }
{
    match answered {
        Ok(Progress::More) => Ok(Progress::Halted),
        Ok(Progress::Halted) => Ok(Progress::Halted),
        Ok(Progress::Ended) => Ok(Progress::Ended),
        Err(stop) => Err(stop),
    }
}

/// Goes on with the machine of an image for up to `most` steps, and prints their lines and what is due then.
fn step_on<K: Sink, B: Backing>(image: Machine, most: u64, printer: &mut K, backing: &mut B) -> u8
    requires shows { (s : Session) × StandsAt None image s }
    requires countable { AreCountable image.tasks.jobs }
    requires sized { B.size backing.old + 1 ≡ length image.sectors.links }
    requires unhalted { image.tasks.halt ≡ None }
    requires unprinted { image.tasks.printed ≡ 0 }
    ensures gone { (k : machine.Machine) × HasGoneOn (device_of B.holds B.size B.faults backing.old backing.new) (StepsTo most K.taken K.faults printer.old printer.new result) image k × AreTyped (parts_of k) }
    ensures device { DeviceAfterCalls B.holds B.size B.calls B.faults backing.old backing.new }
{
    let mut left = image;
    let answered = slice(&mut left, most, backing, printer);
    machine_is_typed(&left);
    finish(halted_there(answered), Closing::Image, &left, printer)
}

/// Reads an image, goes on with its machine over a device for up to `most` operators, and prints their lines. Where a task lives
/// after so many, the image of the machine then is printed behind them, and the line of a halt, as where a run halts of which
/// an image is asked.
///
/// Status 3 is that; 0 that all tasks ended. Else the steps stop before one: 4 if core is too small, 5 if the device has too
/// few sectors, 6 if it failed, with the last line that a run has then. 2 is a refused image, 7 a source that failed, 8 a
/// printer that failed, 9 out of memory.
pub fn step_from_image<S: Source, K: Sink, B: Backing>(
    alloc: Global,
    most: u64,
    image: &mut S,
    printer: &mut K,
    backing: &mut B,
) -> u8
    ensures steps { StepsFromImage most S.left S.faults image.old image.new (device_of B.holds B.size B.faults backing.old backing.new) K.taken K.faults printer.old printer.new result }
    ensures device { DeviceAfterCalls B.holds B.size B.calls B.faults backing.old backing.new }
{
    match read_image(alloc, image, Some(backing.sectors())) {
        Ok(machine) => step_on(machine, most, printer, backing),
        Err(fault) => refuse_image(fault, printer),
    }
}
