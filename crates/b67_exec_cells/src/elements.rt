//! Elements of arrays in core, and copies of arrays' descriptors.

ghost use Rattle.std.specs.Prelude.{◌≡◌, ℕ};
ghost use Rattle.b67_model.specs.Words.{Row};
ghost use Rattle.b67_layout.specs.Meets.{ForEach};
ghost use Rattle.b67_layout.specs.Tops.{IsWordOf};
ghost use Rattle.b67_exec_cells.specs.Elements.{HasElement, HoldsElement, original_desc, GivesElement};

use b67_ctl::DataDesc;
use b67_stack::Cpu;
use b67_word::Word;

/// The descriptor in the original of an array of the running job.
#[inline(always)]
pub fn array_descriptor(cpu: &Cpu, original: u32) -> DataDesc
    requires { (index : ℕ) × HoldsElement cpu.now original index }
    ensures { ForEach cpu.now (λ x plan s m t. (n index : ℕ) → original ≡ plan.home m.constants.number n → HasElement m.progress.job n index → result ≡ original_desc x plan m n) }
{
    DataDesc::read(cpu.core.get(original))
}

/// The word of an element of an array of the running job. None exactly if the array is absent.
#[inline(always)]
pub fn element(cpu: &Cpu, original: u32, index: u32) -> Option<Word>
    requires { HoldsElement cpu.now original index }
    ensures { ForEach cpu.now (λ x plan s m t. (n : ℕ) → original ≡ plan.home m.constants.number n → HasElement m.progress.job n index → GivesElement x plan m n index result) }
{
    let desc = array_descriptor(cpu, original);
    if !desc.present {
        return None;
    }
    Some(cpu.core.get(desc.address + index))
}

/// The word of a copy of an array's descriptor, of the whole array.
pub fn row_copy(cpu: &Cpu, original: u32) -> Word
    requires { (index : ℕ) × HoldsElement cpu.now original index }
    ensures { ForEach cpu.now (λ x plan s m t. (n index at : ℕ) → original ≡ plan.home m.constants.number n → HasElement m.progress.job n index → IsWordOf x plan m t (Row n) at result) }
{
    let desc = array_descriptor(cpu, original);
    if desc.present {
        DataDesc { copy: true, ..desc }.word()
    } else {
        DataDesc {
            copy: true,
            address: original,
            ..desc
        }
        .word()
    }
}
