//! Whether a machine represents a session.

ghost use Rattle.std.specs.Prelude.{IfOk};
ghost use Rattle.std.specs.Bool.{OnTrue, OnFalse};
ghost use Rattle.b67_backing.specs.Shelf.{Shelf, IsShelf};
ghost use Rattle.b67_layout_shown.specs.Machines.{sight_of, RepresentsOne};
ghost use Rattle.b67_image_shape.specs.Deciding.{Decides};
ghost use Rattle.b67_image_shape.specs.TableMarks.{IsTable};
ghost use Rattle.b67_image_shape.specs.ObjectLaws.{KeptFacts};
ghost use Rattle.b67_image_shape.specs.Shaping.{FrontFacts};

use crate::cells::are_cells_in_order;
use crate::critical_marks::critical_passes;
use crate::display::display_passes;
use crate::fixed_words::fixed_passes;
use crate::laws::{
    critical_marks_are_tested, fixed_words_are_tested, items_are_exact, tables_are_tested,
};
use crate::links::links_of;
use crate::object_laws::objects_are_tested;
use crate::objects::are_kept;
use crate::reach::{reaches, reaches_are_decided};
use crate::small_words::words_are_small;
use crate::table::table_of;
use crate::table_laws::{slots_are_there, tables_mark};
use crate::table_rows::tables_pass;
use crate::walk_laws::{near_stacks_suffice, stacks_are_near};
use crate::walk_tasks::stacks_stand;
use b67_backing::sectors_tell_chains;
use b67_layout_shown::laws::machines_are_shown;
use b67_task::Machine;
use std::alloc::{AllocError, Global};

/// Whether a machine's tables, fixed words and stacks stand, and what its tasks name is in their reach.
fn front_stands(machine: &Machine) -> bool
    ensures { Decides result (FrontFacts machine.now) }
{
    tables_are_tested();
    fixed_words_are_tested();
    critical_marks_are_tested();
    reaches_are_decided();
    if !tables_pass(machine) {
        return false;
    }
    if !fixed_passes(machine) {
        return false;
    }
    if !critical_passes(&machine.cpu.critical, machine.tasks.rows.as_slice()) {
        return false;
    }
    if !stacks_stand(machine) {
        return false;
    }
    reaches(machine)
}

/// Whether a machine's objects, areas and chains belong together, by the table of its marks.
fn objects_stand(alloc: Global, machine: &Machine, kinds: &[u8]) -> Result<bool, AllocError>
    requires shelf { (st : Shelf) × IsShelf machine.now.sectors st }
    requires front { FrontFacts machine.now }
    requires kinds { IsTable (sight_of machine.now) kinds.now }
    ensures { IfOk result (λ b. Decides b (KeptFacts machine.now)) }
{
    objects_are_tested();
    tables_mark();
    sectors_tell_chains();
    let links = links_of(alloc, &machine.sectors)?;
    let kept = are_kept(
        alloc,
        &machine.cpu.core,
        machine.areas.low,
        kinds,
        links.as_slice(),
    )?;
    Ok(kept)
}

/// Whether a machine represents some session, in order but for places, whatever its device holds.
pub fn is_shaped(alloc: Global, machine: &Machine) -> Result<bool, AllocError>
    requires shelf { (st : Shelf) × IsShelf machine.now.sectors st }
    ensures some { IfOk result (λ b. OnTrue b (RepresentsOne machine.now)) }
    ensures none { IfOk result (λ b. OnFalse b (RepresentsOne machine.now → ⊥)) }
{
    machines_are_shown();
    items_are_exact();
    slots_are_there();
    near_stacks_suffice();
    stacks_are_near();
    words_are_small(&machine.cpu.core);
    if !front_stands(machine) {
        return Ok(false);
    }
    let kinds = table_of(alloc, machine)?;
    let ordered = are_cells_in_order(alloc, machine, kinds.as_slice())?;
    if !ordered {
        return Ok(false);
    }
    let kept = objects_stand(alloc, machine, kinds.as_slice())?;
    if !kept {
        return Ok(false);
    }
    Ok(display_passes(machine))
}
