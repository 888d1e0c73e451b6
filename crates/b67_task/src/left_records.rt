//! What a leaving left is released.

ghost use Rattle.std.specs.Prelude.{◌≡◌, ℕ, ◌≤◌, List, Option, length};
ghost use Rattle.b67_model.specs.Schedule.{Session};
ghost use Rattle.b67_stack.specs.MachineView.{PagedObject};
ghost use Rattle.b67_stack.specs.Represents.{Storage};
ghost use Rattle.b67_layout.specs.Placement.{Placement};
ghost use Rattle.b67_layout.specs.Session.{RepresentsStorage};
ghost use Rattle.b67_task.specs.Tables.{TasksShow, MachineRepresents};
ghost use Rattle.b67_task.specs.Released.{HasHome, Released};
ghost use Rattle.b67_task.specs.LeftArrays.{IsLeft, AreReleased};

use crate::release_words::release_words;
use crate::tables::Machine;
use b67_area::Areas;
use b67_backing::Sectors;
use b67_stack::Cpu;

/// Gives back the areas and the chains of the arrays whose originals lie from `from` up to `upto`, not included: words
/// above the running task's top, as a leaving left them. The originals themselves stay where they are.
pub fn release_arrays(cpu: &mut Cpu, areas: &mut Areas, sectors: &mut Sectors, from: u32, upto: u32)
    requires left { (left : List PagedObject) × (x : Storage) × (told : Option (List (List ℕ))) × (plan : Placement) × (s : Session)
        × IsLeft left x cpu.old plan s from upto × RepresentsStorage areas.old sectors.old told cpu.old.core x }
    requires order { from ≤ upto }
    ensures rest { cpu.new ≡ record cpu.old { core = cpu.new.core } }
    ensures len { length cpu.new.core ≡ length cpu.old.core }
    ensures areas { areas.new ≡ areas.old }
    ensures count { length sectors.new.links ≡ length sectors.old.links }
    ensures stands { (left : List PagedObject) (x : Storage) (told : Option (List (List ℕ))) (plan : Placement) (s : Session)
        → IsLeft left x cpu.old plan s from upto → RepresentsStorage areas.old sectors.old told cpu.old.core x
        → AreReleased left x cpu.old cpu.new areas.new sectors.new told plan s }
{
    release_words(cpu, areas, sectors, from, upto);
}

/// Gives back those arrays in the whole machine, whose tables of tasks and jobs stay.
pub fn release(machine: &mut Machine, from: u32, upto: u32)
    requires left { (left : List PagedObject) × (x : Storage) × (told : Option (List (List ℕ))) × (plan : Placement) × (s : Session)
        × IsLeft left x machine.old.cpu plan s from upto × RepresentsStorage machine.old.areas machine.old.sectors told machine.old.cpu.core x }
    requires order { from ≤ upto }
    ensures cpu { machine.new.cpu ≡ record machine.old.cpu { core = machine.new.cpu.core } }
    ensures areas { machine.new.areas ≡ machine.old.areas }
    ensures count { length machine.new.sectors.links ≡ length machine.old.sectors.links }
    ensures tasks { machine.new.tasks ≡ machine.old.tasks }
    ensures released { (left : List PagedObject) (x : Storage) (told : Option (List (List ℕ))) (plan : Placement) (s : Session)
        → IsLeft left x machine.old.cpu plan s from upto → RepresentsStorage machine.old.areas machine.old.sectors told machine.old.cpu.core x
        → AreReleased left x machine.old.cpu machine.new.cpu machine.new.areas machine.new.sectors told plan s }
    ensures stands { (left : List PagedObject) (x : Storage) (told : Option (List (List ℕ))) (plan : Placement) (s : Session)
        → IsLeft left x machine.old.cpu plan s from upto → RepresentsStorage machine.old.areas machine.old.sectors told machine.old.cpu.core x
        → TasksShow plan s machine.old.tasks → (y : Storage) × Released (HasHome left) x y × MachineRepresents y told machine.new plan s }
{
    release_arrays(
        &mut machine.cpu,
        &mut machine.areas,
        &mut machine.sectors,
        from,
        upto,
    );
}
