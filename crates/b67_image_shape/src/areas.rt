//! The walk over areas and holes.

ghost use Rattle.std.specs.Prelude.{◌≡◌, ℕ, ◌+◌, ◌<◌, ◌≤◌, ◌^◌, false, length, Some, None, IfSome, IfNone, slice_get, slice_set, slice_index_or};
ghost use Rattle.std.specs.Bool.{OnTrue, OnFalse};
ghost use Rattle.b67_word.specs.Tagged.{word};
ghost use Rattle.b67_ctl.specs.declared.map.TheConstants.{FIRST_DICTIONARY};
ghost use Rattle.b67_area.specs.Words.{link_word};
ghost use Rattle.b67_area.specs.Walk.{IsArea};
ghost use Rattle.b67_layout_shown.specs.Areas.{info_in, kind_in};
ghost use Rattle.b67_image_shape.specs.ObjectMarks.{kind_code, AreaFits, AreasFit};
ghost use Rattle.b67_image_shape.specs.AreaWalk.{WalkedAreas, LieAbove, NothingLies, HoleStands, past_hole, AreaStands, past_area, AreasWalked, AreZeros, walk_from};

use b67_area::{Info, Kind};
use b67_core::Core;
use b67_ctl::{DIRECTORY, FIRST_DICTIONARY};
use b67_word::Word;

/// How far the walk has come: where the link to the next hole stands and the bits above it there, the next address, and
/// whether a hole lies below it.
#[derive(Clone, Copy)]
pub struct Walk {
    before: u32,
    high: u64,
    at: u32,
    hole: bool,
}

/// Whether a word has this tag and these bits.
pub fn is_word(w: Word, tag: u8, bits: u64) -> bool
    ensures yes { OnTrue result (w ≡ word tag bits) }
    ensures not { OnFalse result (w ≡ word tag bits → ⊥) }
{
    if w.tag() != tag {
        return false;
    }
    w.bits() == bits
}

/// Whether the word at an address leads to that one.
fn is_link(core: &Core, before: u32, high: u64, next: u32) -> bool
    requires inside { before < length core.now }
    requires high { high < 2 ^ 28 }
    requires next { next < 2 ^ 20 }
    ensures yes { OnTrue result (slice_get core.now before ≡ Some (link_word high next)) }
    ensures not { OnFalse result (slice_get core.now before ≡ Some (link_word high next) → ⊥) }
{
    is_word(core.get(before), 3, high * 0x10_0000 + u64::from(next))
}

/// Behind the hole at the place of the walk, if one stands there.
fn past_hole(core: &Core, w: Walk) -> Option<Walk>
    requires before { w.before < length core.now }
    requires high { w.high < 2 ^ 28 }
    requires inside { w.at < length core.now }
    ensures some { IfSome result (λ n. HoleStands core.now w × (n ≡ past_hole core.now w)) }
    ensures none { IfNone result (HoleStands core.now w → ⊥) }
{
    let size = core.size();
    let words = core.get(w.at).part(20, 26) as u32;
    if w.hole {
        return None;
    }
    if words == 0 {
        return None;
    }
    if words > size - w.at {
        return None;
    }
    if !is_link(core, w.before, w.high, w.at) {
        return None;
    }
    Some(Walk {
        before: w.at,
        high: 0xC00_0000 + u64::from(words),
        at: w.at + words,
        hole: true,
    })
}

/// The kind of an area, by two bits of its head.
fn kind_of(bits: u64) -> Kind
    ensures { result ≡ kind_in bits }
{
    if bits == 0 {
        return Kind::Array;
    }
    if bits == 1 {
        return Kind::Row;
    }
    Kind::Code
}

/// The area whose head stands at an address, if it lies in core.
fn read_area(core: &Core, at: u32) -> Option<Info>
    requires inside { at < length core.now }
    ensures some { IfSome result (λ a. IsArea core.now at (info_in core.now at) × (a ≡ info_in core.now at)) }
    ensures none { IfNone result (IsArea core.now at (info_in core.now at) → ⊥) }
{
    let size = core.size();
    let head = core.get(at);
    let kind = kind_of(head.part(46, 2));
    let words = head.part(20, 20) as u32;
    let owner = head.part(0, 20) as u32;
    if words == 0 {
        return None;
    }
    if words + 1 >= size - at {
        return None;
    }
    let tail = core.get(at + (words + 1));
    let kept = tail.part(0, 20) as u32;
    let a = Info {
        kind,
        words,
        owner,
        kept,
    };
    let head_again = a.head();
    let tail_again = a.tail();
    if !is_word(head, head_again.tag(), head_again.bits()) {
        return None;
    }
    if !is_word(tail, tail_again.tag(), tail_again.bits()) {
        return None;
    }
    Some(a)
}

/// What the table of marks says where an object of a kind stands.
pub fn kind_code(kind: Kind) -> u8
    ensures { result ≡ kind_code kind }
{
    match kind {
        Kind::Array => 1,
        Kind::Row => 2,
        Kind::Code => 3,
    }
}

/// Whether an area, whose first word has this address, is that of the object that it names.
fn area_fits(core: &Core, kinds: &[u8], at: u32, a: Info) -> bool
    requires { length kinds.now ≡ length core.now }
    ensures yes { OnTrue result (AreaFits core.now kinds.now at a) }
    ensures not { OnFalse result (AreaFits core.now kinds.now at a → ⊥) }
{
    if a.owner >= core.size() {
        return false;
    }
    if kinds[a.owner as usize] != kind_code(a.kind) {
        return false;
    }
    let d = core.get(a.owner);
    if d.part(47, 1) != 1 {
        return false;
    }
    if d.part(0, 20) as u32 != at {
        return false;
    }
    d.part(20, 20) as u32 == a.words
}

/// Past the area or hole at the place of the walk. The owner of an area is marked.
fn past_span(core: &Core, kinds: &[u8], w: Walk, housed: &mut [bool]) -> Option<Walk>
    requires kinds { length kinds.now ≡ length core.now }
    requires inside { w.at < length core.now }
    requires before { w.before < length core.now }
    requires high { w.high < 2 ^ 28 }
    requires many { length housed.old ≡ length core.now }
    ensures some { IfSome result (λ n. (low : ℕ) → WalkedAreas core.now kinds.now low w housed.old → WalkedAreas core.now kinds.now low n housed.new) }
    ensures higher { IfSome result (λ n. w.at < n.at) }
    ensures none { IfNone result ((low : ℕ) → WalkedAreas core.now kinds.now low w housed.old → NothingLies core.now kinds.now (walk_from low)) }
{
    let _size = core.size();
    if core.get(w.at).part(46, 2) == 3 {
        return past_hole(core, w);
    }
    let a = read_area(core, w.at)?;
    if !area_fits(core, kinds, w.at + 1, a) {
        return None;
    }
    housed[a.owner as usize] = true;
    Some(Walk {
        before: w.before,
        high: w.high,
        at: w.at + (a.words + 2),
        hole: false,
    })
}

/// Whether the words between the link to the first hole and the first dictionary are zero.
fn are_zeros(core: &Core) -> bool
    requires { FIRST_DICTIONARY ≤ length core.now }
    ensures yes { OnTrue result (AreZeros core.now) }
    ensures not { OnFalse result (AreZeros core.now → ⊥) }
{
    'each: for i in DIRECTORY + 1..FIRST_DICTIONARY {
        if !is_word(core.get(i), 0, 0) {
            return false;
        }
    }
    true
}

/// Whether areas of objects and holes lie from an address up, as the directory says. The owners of the areas are marked.
pub fn walk_areas(core: &Core, low: u32, kinds: &[u8], housed: &mut [bool]) -> bool
    requires low { FIRST_DICTIONARY ≤ low }
    requires inside { low ≤ length core.now }
    requires kinds { length kinds.now ≡ length core.now }
    requires many { length housed.old ≡ length core.now }
    requires none { (i : ℕ) → slice_index_or housed.old i false ≡ false }
    ensures yes { OnTrue result (AreasWalked core.now low kinds.now housed.new) }
    ensures not { OnFalse result (AreasFit core.now low kinds.now → ⊥) }
{
    let size = core.size();
    if !are_zeros(core) {
        return false;
    }
    let mut w = Walk {
        before: DIRECTORY,
        high: 0,
        at: low,
        hole: false,
    };
    'up: while w.at < size {
        match past_span(core, kinds, w, housed) {
            Some(n) => w = n,
            None => return false,
        }
    }
    is_link(core, w.before, w.high, 0)
}
