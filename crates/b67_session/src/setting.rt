//! The machine of a session that opens.

ghost use Rattle.std.specs.Prelude.{◌≡◌, [], length, map, IfOk, IfErr};
ghost use Rattle.b67_io.specs.Causes.{HasCause};
ghost use Rattle.b67_backing.specs.Shelf.{Shelf, IsShelf};
ghost use Rattle.b67_backing.specs.declared.refusals.SpaceFault.TheVariants.{BackingFault};
ghost use Rattle.b67_codefile.specs.Meaning.{program_of};
ghost use Rattle.b67_layout.specs.Machine.{DeviceAfterCalls, content_after};
ghost use Rattle.b67_lemmas.specs.Lists.{total};
ghost use Rattle.b67_load.specs.Objects.{sectors_of_program};
ghost use Rattle.b67_load.specs.StoredObjects.{stocked};
ghost use Rattle.b67_load.specs.Writing.{HasSectors};
ghost use Rattle.b67_session.specs.Opened.{dictionaries, objects_from};
ghost use Rattle.b67_session.specs.Stored.{absent_storage};
ghost use Rattle.b67_session.specs.InitialOpens.{Opens};
ghost use Rattle.b67_session.specs.Words.{IsBlankFor};

use crate::dictionaries::install_all;
use crate::laying::lay_core;
use b67_area::Areas;
use b67_backing::{Backing, Sectors, SpaceFault};
use b67_core::Core;
use b67_ctl::{FIRST_DICTIONARY, NO_SLOT, Regs, SLOTS};
use b67_load::Admitted;
use b67_stack::Cpu;
use b67_word::Place;

/// Core with its registers, and the areas, of a session that hasn't begun: no task runs and there is no area.
#[derive(Drop)]
pub struct Initial {
    pub cpu: Cpu,
    pub areas: Areas,
}

/// The registers where no task's registers are loaded.
fn idle_registers(stacks: u32, stack_size: u16, peak: u8) -> Regs
    ensures slot { result.slot ≡ NO_SLOT }
    ensures stacks { result.stacks ≡ stacks }
    ensures size { result.stack_size ≡ stack_size }
    ensures peak { result.peak ≡ peak }
{
    let place = Place {
        word: 0,
        syllable: 0,
    };
    Regs {
        s: 0,
        f: 0,
        bosr: 0,
        losr: 0,
        slot: NO_SLOT,
        level: 0,
        segment: 0,
        place,
        dict: 0,
        entries: 0,
        stacks,
        stack_size,
        peak,
    }
}

/// Sets up core and sectors for a session of these programs, one for each job in order, with stacks of `stack` words:
/// the words of the MCP, each program's dictionary, and the stack of each job's first task, which waits in the slot
/// before the job's number. Code and data rows are in sectors alone. Refused with `BackingFault` alone, where the device
/// failed.
pub fn set_up<B: Backing>(
    core: Core,
    sectors: &mut Sectors,
    backing: &mut B,
    stack: u16,
    programs: &[Admitted],
) -> Result<Initial, SpaceFault>
    requires core { IsBlankFor core (dictionaries (map program_of programs.now)) stack (length programs.now) }
    requires sectors { HasSectors (B.size backing.old) sectors.old (total sectors_of_program (map program_of programs.now)) }
    ensures opens { IfOk result (λ m. (st : Shelf) → IsShelf sectors.old st → st.chains ≡ []
        → Opens m.areas sectors.new (content_after (B.holds backing.old) (B.holds backing.new))
        (absent_storage m.cpu.core m.areas.low (stocked (objects_from FIRST_DICTIONARY (map program_of programs.now)) st) (content_after (B.holds backing.old) (B.holds backing.new)))
        m.cpu stack (map program_of programs.now)) }
    ensures len { IfOk result (λ m. length m.cpu.core ≡ length core) }
    ensures device { DeviceAfterCalls B.holds B.size B.calls B.faults backing.old backing.new }
    ensures count { length sectors.new.links ≡ length sectors.old.links }
    ensures refusal { IfErr result (λ fault. fault ≡ BackingFault) }
    ensures cause { HasCause B.faults backing.old backing.new result }
{
    let jobs = programs.len() as u8;
    let mut cpu = Cpu {
        core,
        regs: idle_registers(0, stack, jobs),
        display: [0; 32],
        critical: [0; SLOTS as usize],
    };
    let stacks = install_all(&mut cpu, sectors, backing, programs)?;
    cpu.regs = idle_registers(stacks, stack, jobs);
    let areas = lay_core(&mut cpu.core, stacks, stack, jobs);
    Ok(Initial { cpu, areas })
}
