//! Operators that index arrays.

ghost use Rattle.std.specs.Prelude.{◌≡◌, ℕ, ◌+◌, ◌<◌, ◌≤◌, OnOk, Ok, Some};
ghost use Rattle.b67_word.specs.declared.couples.Place.{Place};
ghost use Rattle.b67_model.specs.Words as words;
ghost use Rattle.b67_model.specs.Words.{Element, operand};
ghost use Rattle.b67_model.specs.Indexing.{array_of as array_of_row, indexed as indexed_row};
ghost use Rattle.b67_model.specs.Rows as rows;
ghost use Rattle.b67_model.specs.Steps.{cells_of};
ghost use Rattle.b67_arith.specs.OnWords.{operand_bits};
ghost use Rattle.b67_stack.specs.declared.Step.TheVariants.{Done};
ghost use Rattle.b67_layout.specs.Meets.{here, Meets, RunsSome, ForEach};
ghost use Rattle.b67_layout.specs.Tops.{IsWordOf};
ghost use Rattle.b67_exec_cells.specs.Elements.{HasElement, HoldsElement};
ghost use Rattle.b67_exec_cells.specs.Tops.{StaysInSegment};
ghost use Rattle.b67_fetch.specs.Fetches.{IsFollowed, MayFollow};
ghost use Rattle.b67_fetch.specs.Indexes.{array_in, FindsArray, index_in, FindsItem, FindsTopItem, IsTopItem};

use b67_ctl::DataDesc;
use b67_exec_cells::{array_descriptor, element, put_over, two_cells};
use b67_refer::{End, chase, near_end, owner};
use b67_stack::{Cpu, Step, What};
use b67_word::{Fault, Place, Word};

/// The original's address of the array at an end. INVALID OPERAND at any other end.
#[inline(always)]
fn array_in(end: End) -> Result<u32, Fault>
    ensures { result ≡ array_in end }
{
    match end {
        End::Array(original) => Ok(original),
        End::Cell(_) | End::Element { .. } | End::Proc(_) | End::Intrinsic(_) => {
            Err(Fault::InvalidOperand)
        }
    }
}

/// The original's address of the array that a reference or a row copy leads to. The faults of `chase`; INVALID OPERAND for
/// any other word, and where a reference ends elsewhere.
#[inline(always)]
fn array_of(cpu: &Cpu, w: Word) -> Result<u32, Fault>
    requires { MayFollow cpu.now w }
    ensures { ForEach cpu.now (λ x plan s m t. (q : Place) (v : words.Word) → IsFollowed x plan m t w v → FindsArray plan m result (array_of_row (here m t q) v)) }
{
    if w.tag() != 5 {
        return match chase(&cpu.core, &cpu.regs, &cpu.display, w) {
            Ok(end) => array_in(end),
            Err(fault) => Err(fault),
        };
    }
    let copy = DataDesc::read(w);
    if copy.copy && !copy.indexed {
        Ok(owner(&cpu.core, copy))
    } else {
        Err(Fault::InvalidOperand)
    }
}

/// The index that an operand is in an array of `length` elements. EXPONENT if it isn't whole, INVALID INDEX if it is
/// none of them.
#[inline(always)]
fn index_below(index: Word, length: u32) -> Result<u32, Fault>
    requires { index.tag ≡ 0 }
    ensures { result ≡ index_in length index.bits }
{
    let n = match index.value() {
        Some(n) => n,
        None => return Err(Fault::Exponent),
    };
    if n < 0 || n >= i64::from(length) {
        return Err(Fault::InvalidIndex);
    }
    Ok(n as u32)
}

/// The original and the index of the element that a word's array and an operand give. INVALID OPERAND if the index is
/// none, the faults of `array_of`, those of `index_below`.
#[inline(always)]
fn item_at(cpu: &Cpu, reference: Word, index: Word) -> Result<(u32, u32), Fault>
    requires { MayFollow cpu.now reference }
    ensures { ForEach cpu.now (λ x plan s m t. (q : Place) (v i : words.Word) → IsFollowed x plan m t reference v → operand_bits index ≡ operand i
        → FindsItem plan m result (indexed_row (here m t q) v i)) }
{
    if index.tag() != 0 {
        return Err(Fault::InvalidOperand);
    }
    let original = match array_of(cpu, reference) {
        Ok(original) => original,
        Err(fault) => return Err(fault),
    };
    match index_below(index, array_descriptor(cpu, original).length) {
        Ok(n) => Ok((original, n)),
        Err(fault) => Err(fault),
    }
}

/// The element that the two top cells give, in either order. STACK UNDERFLOW, the faults of `item_at`.
#[inline(always)]
fn top_item(cpu: &Cpu) -> Result<(u32, u32), Fault>
    requires { RunsSome cpu.now }
    ensures item { ForEach cpu.now (λ x plan s m t. (q : Place) → FindsTopItem plan m (here m t q) (cells_of (here m t q)) result) }
    ensures above { OnOk result (cpu.now.regs.f + 2 ≤ cpu.now.regs.s) }
{
    let (lower, upper) = match two_cells(cpu) {
        Ok(words) => words,
        Err(fault) => return Err(fault),
    };
    let (reference, index) = if upper.tag() == 0 {
        (lower, upper)
    } else {
        (upper, lower)
    };
    item_at(cpu, reference, index)
}

/// The original and the index of the element that a couple of a near original and an operand give, if
/// they do.
#[inline(always)]
fn own_item_at(cpu: &Cpu, reference: Word, index: Word) -> Option<(u32, u32)>
    requires { MayFollow cpu.now reference }
    ensures { (found : ℕ × ℕ) → result ≡ Some found → ForEach cpu.now (λ x plan s m t. (q : Place) (v i : words.Word) → IsFollowed x plan m t reference v → operand_bits index ≡ operand i
        → FindsItem plan m (Ok found) (indexed_row (here m t q) v i)) }
{
    if !index.is_natural() {
        return None;
    }
    let end = match near_end(&cpu.core, &cpu.regs, &cpu.display, reference) {
        Some(end) => end,
        None => return None,
    };
    let original = match array_in(end) {
        Ok(original) => original,
        Err(_) => return None,
    };
    let length = array_descriptor(cpu, original).length;
    let at = index.bits();
    if at >= u64::from(length) {
        return None;
    }
    Some((original, at as u32))
}

/// The element that the two top cells give, in either order, where its array's original is in the top activation record.
#[inline(always)]
pub fn own_item(cpu: &Cpu) -> Option<(u32, u32)>
    requires { RunsSome cpu.now }
    ensures { (found : ℕ × ℕ) → result ≡ Some found → IsTopItem cpu.now found }
{
    let (second, top) = match two_cells(cpu) {
        Ok(words) => words,
        Err(_) => return None,
    };
    let (reference, index) = if top.tag() == 0 {
        (second, top)
    } else {
        (top, second)
    };
    own_item_at(cpu, reference, index)
}

/// The word of a copy of an array's descriptor, of one element.
#[inline(always)]
fn item_copy(cpu: &Cpu, original: u32, index: u32) -> Word
    requires { HoldsElement cpu.now original index }
    ensures { ForEach cpu.now (λ x plan s m t. (n at : ℕ) → original ≡ plan.home m.constants.number n → HasElement m.progress.job n index → IsWordOf x plan m t (Element n index) at result) }
{
    let desc = array_descriptor(cpu, original);
    if desc.present {
        DataDesc {
            copy: true,
            indexed: true,
            length: index,
            ..desc
        }
        .word()
    } else {
        DataDesc {
            copy: true,
            indexed: true,
            length: index,
            address: original,
            ..desc
        }
        .word()
    }
}

/// INDX of the element that the two top cells give.
#[inline(always)]
pub fn indx_at(cpu: &mut Cpu, original: u32, index: u32, next: Place) -> Step
    requires runs { RunsSome cpu.old }
    requires item { IsTopItem cpu.old (original, index) }
    ensures row { ForEach cpu.old (λ x plan s m t. let h = here m t next in Meets x plan s m result cpu.old cpu.new (rows.indx h (cells_of h))) }
    ensures stays { result ≡ Done → StaysInSegment cpu.old cpu.new next }
{
    let copy = item_copy(cpu, original, index);
    put_over(cpu, 2, copy, next)
}

/// INDX: an element's copy of its array's descriptor, in the place of the two top cells, goes on at `next`.
#[inline(always)]
pub fn indx(cpu: &mut Cpu, next: Place) -> Step
    requires { RunsSome cpu.old }
    ensures row { ForEach cpu.old (λ x plan s m t. let h = here m t next in Meets x plan s m result cpu.old cpu.new (rows.indx h (cells_of h))) }
    ensures stays { result ≡ Done → StaysInSegment cpu.old cpu.new next }
{
    match top_item(cpu) {
        Ok((original, index)) => indx_at(cpu, original, index, next),
        Err(fault) => Step::Fault(fault),
    }
}

/// NXLV of the element that the two top cells give. If its array is absent, nothing is changed.
#[inline(always)]
pub fn nxlv_at(cpu: &mut Cpu, original: u32, index: u32, next: Place) -> Step
    requires runs { RunsSome cpu.old }
    requires item { IsTopItem cpu.old (original, index) }
    ensures row { ForEach cpu.old (λ x plan s m t. let h = here m t next in Meets x plan s m result cpu.old cpu.new (rows.nxlv h (cells_of h))) }
    ensures stays { result ≡ Done → StaysInSegment cpu.old cpu.new next }
{
    match element(cpu, original, index) {
        Some(w) => put_over(cpu, 2, w, next),
        None => Step::Absent(What::Array(original)),
    }
}

/// NXLV: an element in the place of the two top cells, goes on at `next`. If its array is absent, nothing is changed.
#[inline(always)]
pub fn nxlv(cpu: &mut Cpu, next: Place) -> Step
    requires { RunsSome cpu.old }
    ensures row { ForEach cpu.old (λ x plan s m t. let h = here m t next in Meets x plan s m result cpu.old cpu.new (rows.nxlv h (cells_of h))) }
    ensures stays { result ≡ Done → StaysInSegment cpu.old cpu.new next }
{
    match top_item(cpu) {
        Ok((original, index)) => nxlv_at(cpu, original, index, next),
        Err(fault) => Step::Fault(fault),
    }
}
