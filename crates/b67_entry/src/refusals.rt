//! Words that may not be returned from an activation record.

ghost use Rattle.std.specs.Prelude.{◌≡◌, ℕ, List, Option};
ghost use Rattle.b67_model.specs.Words as Words;
ghost use Rattle.b67_model.specs.State.{top};
ghost use Rattle.b67_model.specs.Entry as rows;
ghost use Rattle.b67_layout.specs.Meets.{RunsSome, ForEach};
ghost use Rattle.b67_entry.specs.Words.{IsTopWord, Refuses};

use b67_ctl::{DataDesc, Sirw};
use b67_refer::owner;
use b67_stack::Cpu;
use b67_word::{Fault, Word};

/// Why a reference at the top of the stack may not be returned: a couple means nothing to the caller, and one into the
/// top activation record would outlive it.
fn reference_refusal(cpu: &Cpu, word: Word) -> Option<Fault>
    requires run { (r : RunsSome cpu.now) × (v : Words.Word) × IsTopWord r.storage r.plan r.member r.task cpu.now v word }
    requires tag { word.tag ≡ 1 }
    ensures { ForEach cpu.now (λ x plan s m t. (v : Words.Word) → IsTopWord x plan m t cpu.now v word
        → Refuses result v (rows.returnable m.progress.job (top t.frames).identity v)) }
{
    match Sirw::from_word(word) {
        None => Some(Fault::InvalidOperand),
        Some(r) => {
            if r.stack == u16::from(cpu.regs.slot)
                && u32::from(r.disp) == cpu.regs.f - cpu.regs.bosr
            {
                Some(Fault::Uplevel)
            } else {
                None
            }
        }
    }
}

/// Why a data descriptor at the top of the stack may not be returned: an original never moves, and a copy of an array of
/// the top activation record would outlive it.
fn copy_refusal(cpu: &Cpu, word: Word) -> Option<Fault>
    requires run { (r : RunsSome cpu.now) × (v : Words.Word) × IsTopWord r.storage r.plan r.member r.task cpu.now v word }
    requires tag { word.tag ≡ 5 }
    ensures { ForEach cpu.now (λ x plan s m t. (v : Words.Word) → IsTopWord x plan m t cpu.now v word
        → Refuses result v (rows.returnable m.progress.job (top t.frames).identity v)) }
{
    let d = DataDesc::read(word);
    if !d.copy {
        return Some(Fault::InvalidOperand);
    }
    let home = owner(&cpu.core, d);
    if home <= cpu.regs.f {
        return None;
    }
    if home > cpu.regs.s {
        return None;
    }
    Some(Fault::Uplevel)
}

/// Why the word at the top of the stack may not be returned.
#[inline(always)]
pub fn refusal(cpu: &Cpu, word: Word) -> Option<Fault>
    requires { (r : RunsSome cpu.now) × (v : Words.Word) × IsTopWord r.storage r.plan r.member r.task cpu.now v word }
    ensures { ForEach cpu.now (λ x plan s m t. (v : Words.Word) → IsTopWord x plan m t cpu.now v word
        → Refuses result v (rows.returnable m.progress.job (top t.frames).identity v)) }
{
    if word.tag() == 1 {
        return reference_refusal(cpu, word);
    }
    if word.tag() == 5 {
        return copy_refusal(cpu, word);
    }
    None
}
