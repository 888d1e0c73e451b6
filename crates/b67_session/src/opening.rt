//! Opening a session: its machine, and the session that runs.

ghost use Rattle.std.specs.Prelude.{◌≡◌, ◌<◌, ◌≤◌, ◌^◌, length, map, IfOk};
ghost use Rattle.b67_codefile.specs.Meaning.{program_of};
ghost use Rattle.b67_layout.specs.Machine.{DeviceAfterCalls};
ghost use Rattle.b67_session.specs.Decks.{DeckInRange, IsLoaded};
ghost use Rattle.b67_session.specs.Opens.{IsOpened};
ghost use Rattle.b67_model.specs.declared.limits.TheConstants.{LEAST_CORE};
ghost use Rattle.std.specs.List.{AllByRecursion};
ghost use Rattle.b67_session.specs.Openings.{MachinesAreOpen};
ghost use Rattle.b67_session.specs.Slices.{IsOpen};

use crate::open_fault::OpenFault;
use crate::opening_needs::{opening_need, opening_sectors};
use crate::opening_tables::opening_tasks;
use crate::running::Session;
use crate::setting::set_up;
use b67_backing::{Backing, Sectors};
use b67_core::Core;
use b67_load::Admitted;
use b67_model_text::Deck;
use b67_task::Machine;
use std::alloc::Global;

/// Opens a deck's session with a program for each job, in a core of that many words over a device: the machine represents
/// the opening state, and nothing is present. Refused in this order: if memory is refused; with `NoCore` exactly if the
/// opening's need exceeds core; with `BackingFull` exactly if the programs take more sectors than the device has; with
/// `BackingFault` only if the device failed. The device isn't called before all other refusals are tried. A job of 2 ^ 32
/// numbers or more, which the tables can't count, is refused as out of memory; a deck that was read, of at most 4,194,304
/// bytes, has no such job.
pub fn open_machine<B: Backing>(
    alloc: Global,
    deck: &Deck,
    programs: &[Admitted],
    core_words: u32,
    backing: &mut B,
) -> Result<Machine, OpenFault>
    requires range { DeckInRange deck.now }
    requires each { length programs.now ≡ length deck.now.jobs }
    requires core_low { LEAST_CORE ≤ core_words }
    requires core_high { core_words < 2 ^ 20 }
    ensures opens { IsOpened B.holds B.size B.faults deck.now (map program_of programs.now) core_words backing.old backing.new result }
    ensures device { DeviceAfterCalls B.holds B.size B.calls B.faults backing.old backing.new }
{
    let count = backing.sectors();
    let core = Core::new(alloc, core_words)?;
    let mut sectors = Sectors::new(alloc, count)?;
    let tasks = opening_tasks(alloc, deck, programs)?;
    let need = opening_need(deck.stack, programs);
    if need > core_words {
        return Err(OpenFault::NoCore {
            need,
            core: core_words,
        });
    }
    let sum = opening_sectors(programs);
    if sum > count {
        return Err(OpenFault::BackingFull {
            sum,
            sectors: count,
        });
    }
    match set_up(core, &mut sectors, backing, deck.stack, programs) {
        Ok(initial) => Ok(Machine {
            cpu: initial.cpu,
            areas: initial.areas,
            sectors,
            tasks,
        }),
        Err(_) => Err(OpenFault::BackingFault),
    }
}

/// What the type of admitted programs says of each; it does nothing, and is there for proofs.
pub fn know_programs(programs: &[Admitted])
    ensures { AllByRecursion IsLoaded programs.now }
{
    'programs: for program in programs {
        let _file = program.file();
    }
}

/// Opens a deck's session with a program for each job, in a core of `core` words over a device: its machine represents the
/// opening state, and a slice of steps may be called. Refused in this order: if memory is refused; with `NoCore` exactly if
/// the opening's need exceeds core; with `BackingFull` exactly if the programs take more sectors than the device has; with
/// `BackingFault` only if the device failed. After all other refusals the device is as it was.
pub fn open<B: Backing>(
    alloc: Global,
    deck: &Deck,
    programs: &[Admitted],
    core_words: u32,
    backing: &mut B,
) -> Result<Session, OpenFault>
    requires range { DeckInRange deck.now }
    requires each { length programs.now ≡ length deck.now.jobs }
    requires core_low { LEAST_CORE ≤ core_words }
    requires core_high { core_words < 2 ^ 20 }
    ensures opens { IsOpened B.holds B.size B.faults deck.now (map program_of programs.now) core_words backing.old backing.new result }
    ensures open { IfOk result (λ k. IsOpen (B.holds backing.new) k) }
    ensures device { DeviceAfterCalls B.holds B.size B.calls B.faults backing.old backing.new }
{
    know_programs(programs);
    match open_machine(alloc, deck, programs, core_words, backing) {
        Ok(machine) => Ok(Session::of(machine)),
        Err(fault) => Err(fault),
    }
}

/// A slice may be called on each machine that represents a session, as that of an image does whatever its device holds.
pub fn machines_are_open()
    ensures { MachinesAreOpen }
{}
