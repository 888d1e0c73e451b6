//! The sectors that a state takes, read from the descriptors in dictionaries and stacks.

ghost use Rattle.std.specs.Prelude.{◌≡◌, ℕ, true, false, ◌+◌, ◌-◌, ◌*◌, ◌≤◌, length, List, Option};
ghost use Rattle.b67_model.specs.Sectors.{sectors};
ghost use Rattle.b67_model.specs.Schedule.{Session};
ghost use Rattle.b67_layout.specs.Orders.{IsInOrderButCounts};
ghost use Rattle.b67_stack.specs.Represents.{Storage};
ghost use Rattle.b67_layout.specs.Placement.{Placement};
ghost use Rattle.b67_task.specs.Tables.{MachineRepresents};
ghost use Rattle.b67_stack.specs.MachineView.{MachineView};
ghost use Rattle.b67_overlay.specs.Turns.{Lies};
ghost use Rattle.b67_task.specs.Sums.{sectors_of_word, core_sectors_from, sectors_of_slots, LiesSome};
ghost use Rattle.b67_task.specs.Needing.{StandsOrdered};

use crate::tables::Machine;
use b67_backing::sectors_needed;
use b67_core::Core;
use b67_ctl::{FIRST_DICTIONARY, Regs};
use b67_overlay::stack_top;
use b67_word::Word;

/// The sectors of the array whose original a word is or, among code, of the segment whose descriptor it is; 0 for any
/// other word.
fn word_sectors(w: Word, code: bool) -> u32
    ensures value { result ≡ sectors_of_word code w }
    ensures low { result ≤ 2185 }
{
    let descriptor = w.tag() == 5 || (code && w.tag() == 3);
    if descriptor && w.part(46, 1) == 0 {
        sectors_needed(w.part(20, 16) as u32)
    } else {
        0
    }
}

/// Those of the words of a range.
pub(crate) fn range_sectors(core: &Core, from: u32, upto: u32, code: bool) -> u32
    requires order { from ≤ upto }
    requires inside { upto ≤ length core.now }
    ensures value { result ≡ core_sectors_from code core.now from (upto - from) }
    ensures low { result ≤ 2185 * (upto - from) }
{
    let _size = core.size();
    let mut sum = 0;
    for at in from..upto {
        sum += word_sectors(core.get(at), code);
    }
    sum
}

/// Those of the words of all dictionaries and of all stacks up to their tops.
fn core_sectors(core: &Core, regs: &Regs) -> u32
    requires { LiesSome core.now regs.now }
    ensures { (low : ℕ) (p : MachineView) → Lies core.now regs.now low p
        → result ≡ core_sectors_from true core.now FIRST_DICTIONARY (p.stacks - FIRST_DICTIONARY) + sectors_of_slots core.now p p.peak }
{
    let size = u32::from(regs.stack_size);
    let mut base = regs.stacks;
    let mut sum = range_sectors(core, FIRST_DICTIONARY, base, true);
    for slot in 0..regs.peak {
        let top = stack_top(core, regs, slot, base);
        sum += range_sectors(core, base + 1, top + 1, false);
        base += size;
    }
    sum
}

/// The sectors that a session's state takes: for each installed segment, each data row and each live array, touched or
/// not, those of its words, 30 to a sector.
pub fn sector_sum(machine: &Machine) -> u32
    requires { StandsOrdered machine.now }
    ensures { (x : Storage) (told : Option (List (List ℕ))) (plan : Placement) (s : Session) → IsInOrderButCounts s
        → MachineRepresents x told machine.now plan s → result ≡ sectors s.jobs }
{
    core_sectors(&machine.cpu.core, &machine.cpu.regs)
}
