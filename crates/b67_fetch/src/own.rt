//! Stores whose reference needs no call: one to a near operand's cell, or an element copy.

ghost use Rattle.std.specs.Prelude.{◌≡◌, ◌≢◌, ℕ, Ok, Err};
ghost use Rattle.b67_model.specs.Steps.{cells_of};
ghost use Rattle.b67_model.specs.Rows as rows;
ghost use Rattle.b67_layout.specs.Meets.{here, IsMade, RunsSome, ForEach};
ghost use Rattle.b67_exec_cells.specs.Tops.{StaysInSegment};
ghost use Rattle.b67_fetch.specs.Fetches.{MayFollow};
ghost use Rattle.b67_fetch.specs.Stores.{StoresThrough, StoresFrom};

use crate::storing::{element_address, put};
use b67_exec_cells::two_cells;
use b67_refer::{End, element_of, near_place, stuffed_operand};
use b67_stack::Cpu;
use b67_word::{Place, Word};

/// The core address of the element into which a store through a word goes, if the word is a copy of a present array that may be
/// written. Else 0.
#[inline(always)]
fn own_element(cpu: &Cpu, reference: Word) -> u32
    requires { MayFollow cpu.now reference }
    ensures { result ≢ 0 → StoresThrough cpu.now reference result }
{
    let end = match element_of(&cpu.core, &cpu.regs, reference) {
        Ok(end) => end,
        Err(_) => return 0,
    };
    match end {
        End::Element { original, index } => match element_address(cpu, original, index) {
            Ok(at) => at,
            Err(_) => 0,
        },
        _ => 0,
    }
}

/// Stores as STOD does, or as STON if the operand is kept, where the cell under the top one is an operand, and the top one leads to a
/// near operand's cell, or is a copy of a present array's element that may be written. Else nothing is changed, and `Err` is the near
/// cell that a couple on top names over an operand, or 0.
#[inline(always)]
pub fn store_near(cpu: &mut Cpu, keeps: bool, next: Place) -> Result<(), u32>
    requires { RunsSome cpu.old }
    ensures row { result ≡ Ok tt → ForEach cpu.old (λ x plan s m t. let h = here m t next in IsMade x plan s m cpu.old cpu.new (rows.store keeps h (cells_of h))) }
    ensures stays { result ≡ Ok tt → StaysInSegment cpu.old cpu.new next }
    ensures rest { (near : ℕ) → result ≡ Err near → cpu.new ≡ cpu.old }
    ensures names { (near : ℕ) → result ≡ Err near → near ≢ 0 → StoresFrom cpu.old near }
{
    let (lower, upper) = match two_cells(cpu) {
        Ok(two) => two,
        Err(_) => return Err(0),
    };
    if lower.tag() != 0 {
        return Err(0);
    }
    let near = near_place(&cpu.core, &cpu.regs, &cpu.display, upper);
    if near != 0 {
        if cpu.core.get(near).tag() != 0 {
            return Err(near);
        }
        put(cpu, near, lower, keeps, next);
        return Ok(());
    }
    let stuffed = stuffed_operand(&cpu.core, &cpu.regs, upper);
    if stuffed != 0 {
        put(cpu, stuffed, lower, keeps, next);
        return Ok(());
    }
    let at = own_element(cpu, upper);
    if at == 0 {
        return Err(0);
    }
    put(cpu, at, lower, keeps, next);
    Ok(())
}
