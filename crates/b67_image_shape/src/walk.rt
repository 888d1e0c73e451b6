//! The walk down a stack.

ghost use Rattle.std.specs.Prelude.{◌≡◌, true, ◌+◌, ◌-◌, ◌<◌, ◌≤◌, ◌^◌, length};
ghost use Rattle.b67_layout_shown.specs.Reading.{word_seen_at, mscw_in, rcw_in, desc_in, home_by};
ghost use Rattle.b67_image_shape.specs.Fitting.{same, copy_fits, original_fits};
ghost use Rattle.b67_image_shape.specs.Held.{location_in};
ghost use Rattle.b67_layout_shown.specs.Reading.{index_by};
ghost use Rattle.b67_image_shape.specs.StackWalk.{cell_fits, cells_fit, mark_by, head_by, returns_here, record_fits, level_under, walk_test};
ghost use Rattle.b67_layout_shown.specs.Reading.{return_by};
ghost use Rattle.b67_stack.specs.Common.{Marked};
ghost use Rattle.b67_ctl.specs.Layout.{mscw_word};

use b67_core::Core;
use b67_ctl::{DataDesc, Mscw, Rcw};
use b67_layout_shown::seeing::word_seen_at;
use b67_model::MOST_ARRAY;
use b67_word::{Place, Word};

/// Whether two words are the same.
pub fn same(w: Word, v: Word) -> bool
    ensures { result ≡ same w v }
{
    w.tag() == v.tag() && w.bits() == v.bits()
}

/// What a word says as a data descriptor.
pub fn desc_in(w: Word) -> DataDesc
    ensures { result ≡ desc_in w }
{
    DataDesc {
        present: w.part(47, 1) == 1,
        copy: w.part(46, 1) == 1,
        indexed: w.part(45, 1) == 1,
        read_only: w.part(43, 1) == 1,
        length: w.part(20, 20) as u32,
        address: w.part(0, 20) as u32,
    }
}

/// What a word says as a mark.
pub fn mscw_in(w: Word) -> Mscw
    ensures { result ≡ mscw_in w }
{
    Mscw {
        far: w.part(47, 1) == 1,
        entered: w.part(46, 1) == 1,
        env_stack: w.part(36, 10) as u16,
        env_disp: w.part(20, 16) as u16,
        value: w.part(19, 1) == 1,
        level: w.part(14, 5) as u8,
        back: w.part(0, 14) as u16,
    }
}

/// What a word says as a return word.
fn rcw_in(w: Word) -> Rcw
    ensures { result ≡ rcw_in w }
{
    Rcw {
        place: Place {
            word: w.part(20, 13) as u16,
            syllable: w.part(33, 3) as u8,
        },
        level: w.part(14, 5) as u8,
        segment: w.part(0, 14) as u16,
    }
}

/// Whether a copy names the array that its word names, and has its address.
fn copy_fits(core: &Core, w: Word) -> bool
    requires { (desc_in w).copy ≡ true }
    ensures { result ≡ copy_fits (location_in core.now) (record { index = index_by (desc_in w).length (desc_in w).indexed; read_only = (desc_in w).read_only }) (home_by core.now (desc_in w).address (desc_in w).present) w (desc_in w) }
{
    let d = desc_in(w);
    if !d.indexed && (d.length == 0 || d.length > MOST_ARRAY as u32) {
        return false;
    }
    if !same(w, d.word()) {
        return false;
    }
    if !d.present {
        return true;
    }
    let head = word_seen_at(core, u64::from(d.address.saturating_sub(1)));
    let original = word_seen_at(core, head.part(0, 20));
    original.part(47, 1) == 1 && original.part(0, 20) == u64::from(d.address)
}

/// Whether an original has its layout.
fn original_fits(w: Word) -> bool
    ensures { result ≡ original_fits w (desc_in w) }
{
    let d = desc_in(w);
    if d.copy || d.indexed {
        return false;
    }
    same(w, d.word())
}

/// Whether the cell at an address is of the shape that is read of it.
fn cell_fits(core: &Core, at: u64) -> bool
    ensures { result ≡ cell_fits core.now at }
{
    let w = word_seen_at(core, at);
    if w.tag() != 5 {
        return true;
    }
    if w.part(46, 1) == 1 {
        return copy_fits(core, w);
    }
    original_fits(w)
}

/// Whether so many cells from an address up are of their shapes.
fn cells_fit(core: &Core, at: u64, many: u64) -> bool
    requires { at + many < 2 ^ 63 }
    ensures { result ≡ cells_fit core.now at many }
{
    let mut left = many;
    'down: while left > 0 {
        left -= 1;
        if !cell_fits(core, at + left) {
            return false;
        }
    }
    true
}

/// Whether the return word at an address is that of a mark.
fn returns_here(core: &Core, segments: u16, at: u64, m: Mscw) -> bool
    ensures { result ≡ returns_here core.now segments at (return_by m.value (rcw_in (word_seen_at core.now at)) m.back) }
{
    let w = word_seen_at(core, at);
    if m.back == 0 {
        return w.tag() == 3 && w.bits() == 0;
    }
    let r = rcw_in(w);
    if r.segment < 2 {
        return false;
    }
    if r.segment - 1 > segments {
        return false;
    }
    same(w, r.word())
}

/// Whether a mark that isn't entered has nothing but its distance.
fn marked_fits(w: Word) -> bool
    ensures { result ≡ same w (mscw_word (mark_by 0 Marked (mscw_in w).back)) }
{
    w.tag() == 3 && w.bits() == w.part(0, 14)
}

/// Whether an entered mark in the stack of a slot is that of what it tells.
fn entered_fits(core: &Core, slot: u8, f: u64) -> bool
    requires small { f < 2 ^ 62 }
    ensures { result ≡ same (word_seen_at core.now f) (mscw_word (mark_by slot (head_by core.now f (mscw_in (word_seen_at core.now f))) (mscw_in (word_seen_at core.now f)).back)) }
{
    let w = word_seen_at(core, f);
    let m = mscw_in(w);
    let again = Mscw {
        far: m.env_stack != u16::from(slot),
        entered: true,
        value: m.back != 0 && m.value,
        ..m
    };
    same(w, again.word())
}

/// Whether the words of the activation record of the mark at f, which reaches up to s, are as they should be.
fn record_fits(core: &Core, slot: u8, segments: u16, level: u8, f: u64, s: u64) -> bool
    requires small { f < 2 ^ 62 }
    requires top { s < 2 ^ 62 }
    ensures { result ≡ record_fits core.now slot segments level f s (mscw_in (word_seen_at core.now f)) (mscw_in (word_seen_at core.now f)).entered }
{
    let m = mscw_in(word_seen_at(core, f));
    if !m.entered {
        return f <= s && marked_fits(word_seen_at(core, f)) && cells_fit(core, f + 1, s - f);
    }
    if f >= s {
        return false;
    }
    if m.level != level {
        return false;
    }
    if !entered_fits(core, slot, f) {
        return false;
    }
    if !returns_here(core, segments, f + 1, m) {
        return false;
    }
    cells_fit(core, f + 2, s - (f + 1))
}

/// The level below the activation record of the mark at f.
fn level_under(core: &Core, level: u8, f: u64) -> u8
    requires small { f < 2 ^ 62 }
    ensures { result ≡ level_under core.now level f (mscw_in (word_seen_at core.now f)).entered }
{
    if word_seen_at(core, f).part(46, 1) != 1 {
        return level;
    }
    word_seen_at(core, f + 1).part(14, 5) as u8
}

/// Whether the activation records from the mark at f down, of which the first reaches up to s, are as they should be.
pub fn walk_down(
    core: &Core,
    base: u64,
    slot: u8,
    segments: u16,
    turns: u32,
    top: u8,
    mark: u64,
    high: u64,
) -> bool
    requires base { base < 2 ^ 60 }
    requires small { mark < 2 ^ 60 }
    requires top { high < 2 ^ 60 }
    ensures { result ≡ walk_test core.now base slot segments turns top mark high }
{
    let mut level = top;
    let mut f = mark;
    let mut s = high;
    'down: for _turn in 0..turns {
        if f <= base {
            return false;
        }
        if !record_fits(core, slot, segments, level, f, s) {
            return false;
        }
        let w = word_seen_at(core, f);
        let back = w.part(0, 14);
        if back == 0 {
            return f == base + 1 && w.part(46, 1) == 1;
        }
        if f <= base + back {
            return false;
        }
        level = level_under(core, level, f);
        s = f - 1;
        f -= back;
    }
    false
}
