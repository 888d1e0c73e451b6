//! The cells of the running task's top activation record: the top ones as words, and others in their place. What
//! operators on these cells, and pushes, have in common.

ghost use Rattle.std.specs.Prelude.{◌≡◌, ℕ, ◌+◌, ◌-◌, ◌<◌, ◌≤◌, OnOk, List, length, ◌++◌, ◌∷◌, None, true, false};
ghost use Rattle.b67_model.specs.Words as words;
ghost use Rattle.b67_model.specs.Steps.{leaves_cells};
ghost use Rattle.b67_stack.specs.declared.Step.TheVariants.{Done};
ghost use Rattle.b67_layout.specs.Meets.{here, Meets, IsMade, RunsSome, ForEach};
ghost use Rattle.b67_layout.specs.Tops.{IsWordOf, cells as cells_of, GivesTop};
ghost use Rattle.b67_exec_cells.specs.Tops.{GivesTwo, MayStand, NoOriginals, StaysInSegment};

use b67_stack::{Cpu, Step};
use b67_word::{Fault, Place, Word};

/// How many cells the top activation record has.
#[inline(always)]
pub fn count_cells(cpu: &Cpu) -> u32
    requires { RunsSome cpu.now }
    ensures count { ForEach cpu.now (λ x plan s m t. result ≡ length (cells_of t)) }
    ensures above { cpu.now.regs.f + result ≤ cpu.now.regs.s }
    ensures near { cpu.now.regs.s ≤ cpu.now.regs.f + result + 1 }
{
    let entered = cpu.is_top_entered();
    cpu.regs.s - cpu.regs.f - u32::from(entered)
}

/// Whether the top activation record has as many cells. Its mark is read only if it has just as many, or one fewer.
#[inline]
fn has_cells(cpu: &Cpu, count: u32) -> bool
    requires { RunsSome cpu.now }
    ensures enough { result ≡ true → ForEach cpu.now (λ x plan s m t. count ≤ length (cells_of t)) }
    ensures few { result ≡ false → ForEach cpu.now (λ x plan s m t. length (cells_of t) < count) }
    ensures above { result ≡ true → cpu.now.regs.f + count ≤ cpu.now.regs.s }
{
    if cpu.regs.s - cpu.regs.f > count {
        return true;
    }
    count_cells(cpu) >= count
}

/// The top cell. STACK UNDERFLOW if the top activation record has none.
#[inline(always)]
pub fn top_cell(cpu: &Cpu) -> Result<Word, Fault>
    requires { RunsSome cpu.now }
    ensures cell { ForEach cpu.now (λ x plan s m t. GivesTop x plan m t cpu.now (cells_of t) result) }
    ensures above { OnOk result (cpu.now.regs.f + 1 ≤ cpu.now.regs.s) }
{
    if !has_cells(cpu, 1) {
        return Err(Fault::StackUnderflow);
    }
    Ok(cpu.core.get(cpu.regs.s))
}

/// The second cell from the top and the top one. STACK UNDERFLOW if the top activation record has fewer.
#[inline(always)]
pub fn two_cells(cpu: &Cpu) -> Result<(Word, Word), Fault>
    requires { RunsSome cpu.now }
    ensures cells { ForEach cpu.now (λ x plan s m t. GivesTwo x plan m t cpu.now (cells_of t) result) }
    ensures above { OnOk result (cpu.now.regs.f + 2 ≤ cpu.now.regs.s) }
{
    if !has_cells(cpu, 2) {
        return Err(Fault::StackUnderflow);
    }
    Ok((cpu.core.get(cpu.regs.s - 1), cpu.core.get(cpu.regs.s)))
}

/// The running task goes on at `next`. Field by field, since a place has a byte that needn't be written.
#[inline(always)]
pub(crate) fn go_on_at(cpu: &mut Cpu, next: Place)
    ensures { cpu.new ≡ record cpu.old { regs = record cpu.old.regs { place = next } } }
{
    cpu.regs.place.word = next.word;
    cpu.regs.place.syllable = next.syllable;
}

/// Takes the `count` top cells off, and goes on at `next`.
#[inline(always)]
pub fn drop_cells(cpu: &mut Cpu, count: u32, next: Place)
    requires runs { RunsSome cpu.old }
    requires cells { cpu.old.regs.f + count ≤ cpu.old.regs.s }
    ensures row { ForEach cpu.old (λ x plan s m t. (gone rest : List words.Word) → cells_of t ≡ gone ++ rest → length gone ≡ count
        → NoOriginals gone → IsMade x plan s m cpu.old cpu.new (leaves_cells (here m t next) rest None)) }
    ensures stays { StaysInSegment cpu.old cpu.new next }
{
    cpu.regs.s -= count;
    go_on_at(cpu, next);
}

/// Puts a word in the place of the `count` top cells, and goes on at `next`. STACK OVERFLOW if the stack would be
/// higher than its slot.
#[inline(always)]
pub fn replace_cells(cpu: &mut Cpu, count: u32, w: Word, next: Place) -> Step
    requires runs { RunsSome cpu.old }
    requires cells { cpu.old.regs.f + count ≤ cpu.old.regs.s }
    ensures row { ForEach cpu.old (λ x plan s m t. (gone rest : List words.Word) (v : words.Word) → cells_of t ≡ gone ++ rest → length gone ≡ count
        → NoOriginals gone → MayStand m.progress.job v → IsWordOf x plan m t v (cpu.old.regs.s - count + 1) w
        → Meets x plan s m result cpu.old cpu.new (leaves_cells (here m t next) (v ∷ rest) None)) }
    ensures stays { result ≡ Done → StaysInSegment cpu.old cpu.new next }
{
    let at = cpu.regs.s - count + 1;
    if at > cpu.regs.losr {
        return Step::Fault(Fault::StackOverflow);
    }
    cpu.core.set(at, w);
    cpu.regs.s = at;
    go_on_at(cpu, next);
    Step::Done
}

/// Puts a word in the place of the `count` top cells, one at least, and goes on at `next`.
#[inline(always)]
pub fn put_over(cpu: &mut Cpu, count: u32, w: Word, next: Place) -> Step
    requires runs { RunsSome cpu.old }
    requires some { 1 ≤ count }
    requires cells { cpu.old.regs.f + count ≤ cpu.old.regs.s }
    ensures row { ForEach cpu.old (λ x plan s m t. (gone rest : List words.Word) (v : words.Word) → cells_of t ≡ gone ++ rest → length gone ≡ count
        → NoOriginals gone → MayStand m.progress.job v → IsWordOf x plan m t v (cpu.old.regs.s - count + 1) w
        → Meets x plan s m result cpu.old cpu.new (leaves_cells (here m t next) (v ∷ rest) None)) }
    ensures stays { result ≡ Done → StaysInSegment cpu.old cpu.new next }
{
    let at = cpu.regs.s - count + 1;
    cpu.core.set(at, w);
    cpu.regs.s = at;
    go_on_at(cpu, next);
    Step::Done
}
