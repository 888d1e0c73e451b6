//! The end of a chain of references.

ghost use Rattle.std.specs.Prelude.{◌≡◌, ◌≢◌, ℕ, Some, Ok};
ghost use Rattle.b67_word.specs.Tagged.{Tagged};
ghost use Rattle.b67_word.specs.declared.couples.Place.{Place};
ghost use Rattle.b67_model.specs.Words as Words;
ghost use Rattle.b67_model.specs.Chase.{Leads, link_at, chase_on, follow};
ghost use Rattle.b67_layout.specs.Meets.{here};
ghost use Rattle.b67_refer.specs.RunningContext.{RunningContext, LiveContext, IsShown, live_of, running_of, FromEither};
ghost use Rattle.b67_refer.specs.LiveCells.{StandsFor, IsCellAt};
ghost use Rattle.b67_refer.specs.LiveEnds.{IsReference, EndMeets, LinkMeets};
ghost use Rattle.b67_refer.specs.Ends.{IsCopyOf};
ghost use Rattle.b67_refer.specs.Own.{NamesCell, FollowsTo, LeadsTo};

use crate::couples::{cell_of, couple_at, near_place};
use crate::stuffed::cell_at;
use b67_core::Core;
use b67_ctl::{AreaHead, DataDesc, IntrinsicPcw, Irw, Regs, Sirw};
use b67_model::MOST_LINKS;
use b67_word::{Fault, Word};

/// How many links of a chain may follow its first one.
const MORE_LINKS: u32 = MOST_LINKS - 1;

/// Where a reference ends: at the cell of an operand, at an element of an array, at an array, at the cell of a
/// procedure, or at an intrinsic procedure. Cells are core addresses, and arrays the core addresses of their originals.
#[derive(Clone, Copy, Debug, PartialEq, Eq)]
pub enum End {
    Cell(u32),
    Element { original: u32, index: u32 },
    Array(u32),
    Proc(u32),
    Intrinsic(u8),
}

/// The core address of the original of a copy: that in the head of its area, or its own where the copy is absent.
#[inline(always)]
pub fn owner(core: &Core, copy: DataDesc) -> u32
    requires { (home : ℕ) × IsCopyOf core.now copy home }
    ensures { (home : ℕ) → IsCopyOf core.now copy home → result ≡ home }
{
    if !copy.present {
        return copy.address;
    }
    AreaHead::read(core.get(copy.address - 1)).owner
}

/// The element to which an element copy leads. INVALID INDEX if the array, as it is now, is no longer than the index, INVALID
/// OPERAND if the word is neither an element copy nor a reference.
#[inline(always)]
pub fn element_of(core: &Core, regs: &Regs, w: Word) -> Result<End, Fault>
    requires { (a : LiveContext core.now regs.now) × (at : ℕ) × (owner : ℕ) × (v : Words.Word) × StandsFor a at owner w v }
    ensures leads { (a : LiveContext core.now regs.now) (q : Place) (at owner : ℕ) (v : Words.Word) → StandsFor a at owner w v → w.tag ≢ 1 → EndMeets a q result (follow (here a.member a.runner q) v) }
    ensures copy { (end : End) → result ≡ Ok end → w.tag ≡ 5 }
{
    if w.tag() != 5 {
        return Err(Fault::InvalidOperand);
    }
    let copy = DataDesc::read(w);
    if !copy.indexed {
        return Err(Fault::InvalidOperand);
    }
    let original = owner(core, copy);
    if copy.length >= DataDesc::read(core.get(original)).length {
        return Err(Fault::InvalidIndex);
    }
    Ok(End::Element {
        original,
        index: copy.length,
    })
}

/// What the word in a cell comes to: an end, or None if it is a reference. INVALID OPERAND exactly if it is
/// neither.
#[inline(always)]
fn end_at(core: &Core, regs: &Regs, at: u32) -> Result<Option<End>, Fault>
    requires { (a : LiveContext core.now regs.now) × (q : Place) × (f : ℕ) × (offset : ℕ) × (w : Words.Word) × IsCellAt a q at f offset w }
    ensures { (a : LiveContext core.now regs.now) (q : Place) (f offset : ℕ) (w : Words.Word) → IsCellAt a q at f offset w
        → LinkMeets a q result (link_at (here a.member a.runner q) f offset w) }
{
    let w = core.get(at);
    if w.tag() == 0 {
        return Ok(Some(End::Cell(at)));
    }
    if w.tag() == 1 {
        return Ok(None);
    }
    if w.tag() == 5 {
        let d = DataDesc::read(w);
        if !d.copy {
            return Ok(Some(End::Array(at)));
        }
        if !d.indexed {
            return Ok(Some(End::Array(owner(core, d))));
        }
        return match element_of(core, regs, w) {
            Ok(end) => Ok(Some(end)),
            Err(fault) => Err(fault),
        };
    }
    if w.tag() != 7 {
        return Err(Fault::InvalidOperand);
    }
    match IntrinsicPcw::from_word(w) {
        Some(p) => {
            let number = p.number as u8;
            Ok(Some(End::Intrinsic(number)))
        }
        None => Ok(Some(End::Proc(at))),
    }
}

/// Follows a chain of references, of at most so many links.
#[inline(always)]
fn chase_reference(
    core: &Core,
    regs: &Regs,
    display: &[u32; 32],
    w: Word,
    links: u32,
) -> Result<End, Fault>
    requires { (a : LiveContext core.now regs.now) × IsShown (running_of a) display.now × (at : ℕ) × (owner : ℕ) × (v : Words.Word) × StandsFor a at owner w v × IsReference v }
    ensures { (a : LiveContext core.now regs.now) (q : Place) → IsShown (running_of a) display.now → (at owner : ℕ) (v : Words.Word) → StandsFor a at owner w v
        → IsReference v → FromEither (λ (b : LiveContext core.now regs.now). EndMeets b q result (chase_on (here a.member a.runner q) links (Leads v))) a }
{
    let mut w = w;
    for _i in 0..links {
        let named = match Irw::from_word(w) {
            Some(r) => cell_of(core, regs, display, couple_at(r.couple, regs.level)),
            None => cell_at(core, regs, Sirw::read(w)),
        };
        let at = match named {
            Ok(at) => at,
            Err(fault) => return Err(fault),
        };
        match end_at(core, regs, at) {
            Ok(Some(end)) => return Ok(end),
            Ok(None) => w = core.get(at),
            Err(fault) => return Err(fault),
        }
    }
    Err(Fault::Loop)
}

/// Where a couple's word leads, if the cell that it names is near, and holds no reference. Else None: the word may lead anywhere.
#[inline(always)]
pub fn near_end(core: &Core, regs: &Regs, display: &[u32; 32], w: Word) -> Option<End>
    requires { (a : RunningContext core.now regs.now) × IsShown a display.now }
    ensures leads { (end : End) → result ≡ Some end → LeadsTo core.now regs.now display.now w end }
    ensures couple { (end : End) → result ≡ Some end → w.tag ≡ 1 }
{
    let at = near_place(core, regs, display, w);
    if at == 0 {
        return None;
    }
    match end_at(core, regs, at) {
        Ok(end) => end,
        Err(_) => None,
    }
}

/// Where a reference of the running task leads that names the cell at an address.
#[inline(always)]
pub fn chase_from(core: &Core, regs: &Regs, display: &[u32; 32], at: u32) -> Result<End, Fault>
    requires { (a : RunningContext core.now regs.now) × IsShown a display.now × (w : Tagged) × NamesCell core.now regs.now display.now w at
        × (spot : ℕ) × (owner : ℕ) × (v : Words.Word) × StandsFor (live_of a) spot owner w v }
    ensures { (w : Tagged) → NamesCell core.now regs.now display.now w at → FollowsTo core.now regs.now display.now w result }
{
    match end_at(core, regs, at) {
        Ok(Some(end)) => Ok(end),
        Ok(None) => chase_reference(core, regs, display, core.get(at), MORE_LINKS),
        Err(fault) => Err(fault),
    }
}

/// Where a word leads: a reference to the end of its chain, an element copy to its element. The faults: INVALID ADDRESS
/// if a reference names no cell, INVALID OPERAND if the chain comes to a word that is no end or if the word itself is
/// neither a reference nor an element copy, and LOOP if a link after the 1,024th would be followed. The word is one of any
/// live task of the running task's job, and couples are looked up in the running environment, which the display shows.
#[inline(always)]
pub fn chase(core: &Core, regs: &Regs, display: &[u32; 32], w: Word) -> Result<End, Fault>
    requires { (a : LiveContext core.now regs.now) × IsShown (running_of a) display.now × (at : ℕ) × (owner : ℕ) × (v : Words.Word) × StandsFor a at owner w v }
    ensures running { (a : RunningContext core.now regs.now) (q : Place) → IsShown a display.now → (at owner : ℕ) (v : Words.Word) → StandsFor (live_of a) at owner w v
        → EndMeets (live_of a) q result (follow (here a.member a.task q) v) }
    ensures alive { (a : LiveContext core.now regs.now) (q : Place) → IsShown (running_of a) display.now → (at owner : ℕ) (v : Words.Word) → StandsFor a at owner w v
        → FromEither (λ (b : LiveContext core.now regs.now). EndMeets b q result (follow (here a.member a.runner q) v)) a }
{
    if w.tag() == 1 {
        return chase_reference(core, regs, display, w, MOST_LINKS);
    }
    element_of(core, regs, w)
}
