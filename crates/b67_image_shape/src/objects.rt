//! Whether objects, areas and chains belong together.

ghost use Rattle.std.specs.Prelude.{◌≡◌, ◌≢◌, ℕ, ◌+◌, ◌<◌, ◌≤◌, ◌^◌, true, false, length, Some, None, IfSome, IfNone, IfOk, slice_get, slice_index, slice_index_or};
ghost use Rattle.std.specs.Bool.{OnTrue, OnFalse};
ghost use Rattle.b67_ctl.specs.declared.map.TheConstants.{FIRST_DICTIONARY};
ghost use Rattle.b67_model.specs.declared.limits.TheConstants.{MOST_SECTORS};
ghost use Rattle.b67_backing.specs.Links.{AreInside, AreLed};
ghost use Rattle.b67_stack.specs.MachineView.{tag_of};
ghost use Rattle.b67_layout_shown.specs.Reading.{word_seen_at, desc_in};
ghost use Rattle.b67_image_shape.specs.Held.{location_in};
ghost use Rattle.b67_image_shape.specs.ObjectMarks.{kind_code, desc_at, described, longest, HasArea, HasChainOr, ObjectFits, AreKept, HaveTag, ObjectsClaim};
ghost use Rattle.b67_image_shape.specs.Judged.{AreJudged};

use crate::areas::{is_word, walk_areas};
use crate::chains::{are_claimed, is_chain, led_to};
use b67_area::Kind;
use b67_backing::sectors_needed;
use b67_core::Core;
use b67_ctl::{DataDesc, SegDesc};
use b67_model::{MOST_ARRAY, MOST_SEGMENT};
use b67_word::Word;
use std::alloc::{AllocError, Global};

/// The word of a descriptor of that kind with the fields of a word.
fn described(kind: Kind, w: Word) -> Word
    ensures { result ≡ described kind (desc_in w) }
{
    let present = w.part(47, 1) == 1;
    let words = w.part(20, 20) as u32;
    let address = w.part(0, 20) as u32;
    match kind {
        Kind::Array => DataDesc::original(present, false, words, address),
        Kind::Row => DataDesc::original(present, true, words, address),
        Kind::Code => SegDesc {
            present,
            words,
            address,
        }
        .word(),
    }
}

/// What the objects of a machine are judged by: core, the lowest address of areas, which object stands at each address, which
/// of them have areas, the links of the sectors from 1 on, and which sectors follow another one.
#[derive(Clone, Copy)]
pub struct Objects<'a> {
    core: &'a Core,
    low: u32,
    kinds: &'a [u8],
    housed: &'a [bool],
    links: &'a [u32],
    led: &'a [bool],
}

/// Whether the word at an address is the descriptor of an object of a kind.
fn is_described(core: &Core, at: u32, kind: Kind) -> bool
    requires { at < length core.now }
    ensures yes { OnTrue result (word_seen_at core.now at ≡ described kind (desc_at core.now at)) }
    ensures not { OnFalse result (word_seen_at core.now at ≡ described kind (desc_at core.now at) → ⊥) }
{
    let w = core.get(at);
    let again = described(kind, w);
    is_word(w, again.tag(), again.bits())
}

/// The tag of the words of an object.
fn tag_of(kind: Kind) -> u8
    ensures { result ≡ tag_of kind }
{
    match kind {
        Kind::Array => 0,
        Kind::Row => 0,
        Kind::Code => 3,
    }
}

/// One more than the words that an object may have.
fn longest(kind: Kind) -> u32
    ensures { result ≡ longest kind }
{
    match kind {
        Kind::Array => MOST_ARRAY as u32 + 1,
        Kind::Row => MOST_ARRAY as u32 + 1,
        Kind::Code => MOST_SEGMENT as u32 + 1,
    }
}

/// Whether so many words from an address up have this tag.
fn have_tag(core: &Core, at: u32, words: u32, tag: u8) -> bool
    requires { at + words ≤ length core.now }
    ensures yes { OnTrue result (HaveTag core.now at words tag) }
    ensures not { OnFalse result (HaveTag core.now at words tag → ⊥) }
{
    let _size = core.size();
    'each: for j in 0..words {
        if core.get(at + j).tag() != tag {
            return false;
        }
    }
    true
}

/// Whether a present object has the area that its descriptor names.
fn has_area(objects: &Objects<'_>, at: u32, kind: Kind) -> bool
    requires inside { at < length objects.now.core.now }
    requires judged { AreJudged objects.now }
    requires marked { slice_index objects.now.kinds.now at ≡ kind_code kind }
    requires present { (desc_at objects.now.core.now at).present ≡ true }
    ensures yes { OnTrue result (HasArea objects.now.core.now objects.now.low at kind) }
    ensures not { OnFalse result (HasArea objects.now.core.now objects.now.low at kind → ⊥) }
{
    if !objects.housed[at as usize] {
        return false;
    }
    let w = objects.core.get(at);
    let address = w.part(0, 20) as u32;
    let words = w.part(20, 20) as u32;
    have_tag(objects.core, address, words, tag_of(kind))
}

/// The first sector of an object's chain, 0 for none.
fn chain_at(core: &Core, at: u32) -> u32
    requires inside { at < length core.now }
    requires area { (desc_at core.now at).present ≡ true → (desc_at core.now at).address + (desc_at core.now at).length < length core.now }
    ensures value { result ≡ (location_in core.now at).chain }
    ensures small { result < 2 ^ 20 }
{
    let w = core.get(at);
    if w.part(47, 1) == 1 {
        let address = w.part(0, 20) as u32;
        let words = w.part(20, 20) as u32;
        return core.get(address + words).part(0, 20) as u32;
    }
    w.part(0, 20) as u32
}

/// Whether an object of `words` words has the chain that it must have. An array may have none.
fn has_chain(links: &[u32], led: &[bool], kind: Kind, first: u32, words: u32) -> bool
    requires inside { AreInside links.now }
    requires led { AreLed links.now led.now }
    requires some { 1 ≤ words }
    requires few { words < 2 ^ 20 }
    ensures yes { OnTrue result (HasChainOr links.now kind first words) }
    ensures not { OnFalse result (HasChainOr links.now kind first words → ⊥) }
{
    if first == 0 {
        return match kind {
            Kind::Array => true,
            Kind::Row => false,
            Kind::Code => false,
        };
    }
    is_chain(links, led, first as usize, sectors_needed(words))
}

/// Whether an object has its area, if it is present.
fn is_held(objects: &Objects<'_>, at: u32, kind: Kind) -> bool
    requires inside { at < length objects.now.core.now }
    requires judged { AreJudged objects.now }
    requires marked { slice_index objects.now.kinds.now at ≡ kind_code kind }
    ensures yes { OnTrue result ((desc_at objects.now.core.now at).present ≡ true → HasArea objects.now.core.now objects.now.low at kind) }
    ensures not { OnFalse result (((desc_at objects.now.core.now at).present ≡ true → HasArea objects.now.core.now objects.now.low at kind) → ⊥) }
{
    if objects.core.get(at).part(47, 1) != 1 {
        return true;
    }
    has_area(objects, at, kind)
}

/// Whether an object has what it must have: its descriptor, its area and its chain.
fn object_fits(objects: &Objects<'_>, at: u32, kind: Kind) -> bool
    requires inside { at < length objects.now.core.now }
    requires judged { AreJudged objects.now }
    requires marked { slice_index objects.now.kinds.now at ≡ kind_code kind }
    ensures yes { OnTrue result (ObjectFits objects.now.core.now objects.now.low objects.now.links.now at kind) }
    ensures not { OnFalse result (ObjectFits objects.now.core.now objects.now.low objects.now.links.now at kind → ⊥) }
{
    if !is_described(objects.core, at, kind) {
        return false;
    }
    let words = objects.core.get(at).part(20, 20) as u32;
    if words == 0 {
        return false;
    }
    if words >= longest(kind) {
        return false;
    }
    if !is_held(objects, at, kind) {
        return false;
    }
    let first = chain_at(objects.core, at);
    has_chain(objects.links, objects.led, kind, first, words)
}

/// Whether an object has what it must have, and no object before it has its chain, which is marked then.
fn take_object(objects: &Objects<'_>, at: u32, kind: Kind, claimed: &mut [bool]) -> bool
    requires inside { at < length objects.now.core.now }
    requires judged { AreJudged objects.now }
    requires marked { slice_index objects.now.kinds.now at ≡ kind_code kind }
    requires many { length claimed.old ≡ length objects.now.links.now + 1 }
    ensures yes { OnTrue result (ObjectsClaim objects.now.core.now objects.now.low objects.now.kinds.now objects.now.links.now at claimed.old → ObjectsClaim objects.now.core.now objects.now.low objects.now.kinds.now objects.now.links.now (at + 1) claimed.new) }
    ensures not { OnFalse result (ObjectsClaim objects.now.core.now objects.now.low objects.now.kinds.now objects.now.links.now at claimed.old → AreKept objects.now.core.now objects.now.low objects.now.kinds.now objects.now.links.now → ⊥) }
    ensures len { length claimed.new ≡ length claimed.old }
{
    if !object_fits(objects, at, kind) {
        return false;
    }
    let first = chain_at(objects.core, at) as usize;
    if first == 0 {
        return true;
    }
    if claimed[first] {
        return false;
    }
    claimed[first] = true;
    true
}

/// The same for whatever stands at an address.
fn take_at(objects: &Objects<'_>, at: u32, claimed: &mut [bool]) -> bool
    requires inside { at < length objects.now.core.now }
    requires judged { AreJudged objects.now }
    requires many { length claimed.old ≡ length objects.now.links.now + 1 }
    ensures yes { OnTrue result (ObjectsClaim objects.now.core.now objects.now.low objects.now.kinds.now objects.now.links.now at claimed.old → ObjectsClaim objects.now.core.now objects.now.low objects.now.kinds.now objects.now.links.now (at + 1) claimed.new) }
    ensures not { OnFalse result (ObjectsClaim objects.now.core.now objects.now.low objects.now.kinds.now objects.now.links.now at claimed.old → AreKept objects.now.core.now objects.now.low objects.now.kinds.now objects.now.links.now → ⊥) }
    ensures len { length claimed.new ≡ length claimed.old }
{
    let mark = objects.kinds[at as usize];
    if mark == 0 {
        return true;
    }
    if mark == 1 {
        return take_object(objects, at, Kind::Array, claimed);
    }
    if mark == 2 {
        return take_object(objects, at, Kind::Row, claimed);
    }
    take_object(objects, at, Kind::Code, claimed)
}

/// The same for all of core.
fn take_objects(objects: &Objects<'_>, claimed: &mut [bool]) -> bool
    requires judged { AreJudged objects.now }
    requires many { length claimed.old ≡ length objects.now.links.now + 1 }
    requires none { (i : ℕ) → slice_index_or claimed.old i false ≡ false }
    ensures yes { OnTrue result (ObjectsClaim objects.now.core.now objects.now.low objects.now.kinds.now objects.now.links.now (length objects.now.core.now) claimed.new) }
    ensures not { OnFalse result (AreKept objects.now.core.now objects.now.low objects.now.kinds.now objects.now.links.now → ⊥) }
{
    'each: for at in 0..objects.core.size() {
        if !take_at(objects, at, claimed) {
            return false;
        }
    }
    true
}

/// Whether each object has what it must have and each chain is an object's, with a table of claimed chains of which none is
/// marked.
fn kept_by_marks(objects: &Objects<'_>, claimed: &mut [bool]) -> bool
    requires judged { AreJudged objects.now }
    requires many { length claimed.old ≡ length objects.now.links.now + 1 }
    requires none { (i : ℕ) → slice_index_or claimed.old i false ≡ false }
    ensures yes { OnTrue result (AreKept objects.now.core.now objects.now.low objects.now.kinds.now objects.now.links.now) }
    ensures not { OnFalse result (AreKept objects.now.core.now objects.now.low objects.now.kinds.now objects.now.links.now → ⊥) }
{
    if !take_objects(objects, claimed) {
        return false;
    }
    are_claimed(objects.links, objects.led, claimed)
}

/// Whether objects, areas and chains belong together, by a table that says where objects stand: 1 an array's original, 2 a
/// data row's, 3 a segment descriptor. The links are those of sectors from 1 on.
pub fn are_kept(
    alloc: Global,
    core: &Core,
    low: u32,
    kinds: &[u8],
    links: &[u32],
) -> Result<bool, AllocError>
    requires low { FIRST_DICTIONARY ≤ low }
    requires inside { low ≤ length core.now }
    requires codes { (i : ℕ) → slice_index kinds.now i ≤ 3 }
    requires kinds { length kinds.now ≡ length core.now }
    requires links { AreInside links.now }
    requires few { length links.now < MOST_SECTORS + 1 }
    ensures yes { IfOk result (λ b. OnTrue b (AreKept core.now low kinds.now links.now)) }
    ensures not { IfOk result (λ b. OnFalse b (AreKept core.now low kinds.now links.now → ⊥)) }
{
    let led = led_to(alloc, links)?;
    let mut housed = vec![in alloc; false; core.size() as usize]?;
    let mut claimed = vec![in alloc; false; links.len() + 1]?;
    if !walk_areas(core, low, kinds, housed.as_mut_slice()) {
        return Ok(false);
    }
    let objects = Objects {
        core,
        low,
        kinds,
        housed: housed.as_slice(),
        links,
        led: led.as_slice(),
    };
    Ok(kept_by_marks(&objects, claimed.as_mut_slice()))
}
