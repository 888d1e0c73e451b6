//! Walks over areas and holes, which change nothing.

ghost use Rattle.std.specs.Prelude.{◌≡◌, ℕ, ◌+◌, ◌^◌, ◌<◌, Some, IfSome, List, MatchOption, length};
ghost use Rattle.b67_area.specs.declared.kinds.Info.{Info};
ghost use Rattle.b67_area.specs.Spans.{Span, address, area_at, first_hole, first_area};
ghost use Rattle.b67_area.specs.Directory.{IsDirectory};
ghost use Rattle.b67_area.specs.Walk.{NoFit, FitsHole, Facts, Around, IsAbove, IsArea, LeavesHole, Vacates, front, behind};

use crate::chain::{link_of, room_of};
use crate::kinds::{Info, Kind};
use b67_core::Core;
use b67_ctl::DIRECTORY;

/// A hole, and where the link to it stands.
#[derive(Clone, Copy, Debug, PartialEq, Eq)]
pub struct Fit {
    pub before: u32,
    pub at: u32,
    pub room: u32,
    pub next: u32,
}

/// What lies round an area: where the last link below it stands, the words of the hole there (0 for
/// none), and the first hole above (0 for none).
#[derive(Clone, Copy, Debug, PartialEq, Eq)]
pub struct Links {
    pub before: u32,
    pub room: u32,
    pub next: u32,
}

/// A hole at an address, or none.
#[derive(Clone, Copy, Debug, PartialEq, Eq)]
pub struct Gap {
    pub room: u32,
    pub next: u32,
}

/// What an area leaves: the words at `at`, with the hole after it; the last link below, and the words of the hole there.
#[derive(Clone, Copy, Debug, PartialEq, Eq)]
pub struct Vacancy {
    pub before: u32,
    pub room: u32,
    pub at: u32,
    pub size: u32,
    pub next: u32,
}

/// The lowest hole of that many words and two.
pub fn find_hole(core: &Core, words: u32) -> Option<Fit>
    requires { (low : ℕ) × (ss : List Span) × IsDirectory core.now low ss }
    ensures found { (low : ℕ) (ss : List Span) → IsDirectory core.now low ss
        → MatchOption result (NoFit (words + 2) ss) (λ f. FitsHole (words + 2) low ss f) }
    ensures facts { IfSome result (λ f. Facts core.now (words + 2) f) }
{
    let mut before = DIRECTORY;
    let mut at = link_of(core, DIRECTORY);
    'holes: while at != 0 {
        let room = room_of(core, at);
        let next = link_of(core, at);
        if u64::from(room) >= u64::from(words) + 2 {
            return Some(Fit {
                before,
                at,
                room,
                next,
            });
        }
        before = at;
        at = next;
    }
    None
}

/// The number of words in the head of an area.
pub fn words_of(core: &Core, at: u32) -> u32
    requires { (a : Info) × IsArea core.now at a }
    ensures value { (a : Info) → IsArea core.now at a → result ≡ a.words }
    ensures inside { at + (result + 1) < length core.now }
    ensures small { length core.now < 2 ^ 20 }
{
    core.get(at).part(20, 20) as u32
}

/// The area whose head is at an address.
pub fn info_at(core: &Core, at: u32) -> Info
    requires { (a : Info) × IsArea core.now at a }
    ensures { (a : Info) → IsArea core.now at a → result ≡ a }
{
    let w = core.get(at);
    let words = words_of(core, at);
    let kind = match w.part(46, 2) {
        0 => Kind::Array,
        1 => Kind::Row,
        _ => Kind::Code,
    };
    Info {
        kind,
        words,
        owner: w.part(0, 20) as u32,
        kept: core.get(at + (words + 1)).part(0, 20) as u32,
    }
}

/// What lies round the area whose head is at an address.
pub fn around(core: &Core, at: u32) -> Links
    requires { (low : ℕ) × (ss : List Span) × (a : Info) × IsDirectory core.now low ss × (area_at low ss (at + 1) ≡ Some a) }
    ensures { (low : ℕ) (ss : List Span) (a : Info) → IsDirectory core.now low ss → area_at low ss (at + 1) ≡ Some a
        → Around low ss at a result }
{
    let mut before = DIRECTORY;
    let mut room = 0;
    let mut next = link_of(core, DIRECTORY);
    'up: while next != 0 {
        if at < next {
            return Links { before, room, next };
        }
        before = next;
        room = room_of(core, next);
        next = link_of(core, next);
    }
    Links { before, room, next }
}

/// The hole at an address, if the next hole is there.
pub fn hole_at(core: &Core, at: u32, next: u32) -> Gap
    requires { (b : ℕ) × (h : ℕ) × (ss : List Span) × IsAbove core.now b h at ss × (next ≡ first_hole at ss) }
    ensures { (b : ℕ) (h : ℕ) (ss : List Span) → IsAbove core.now b h at ss → next ≡ first_hole at ss
        → (result.room ≡ front ss) × (result.next ≡ first_hole (at + front ss) (behind ss)) }
{
    if next == at {
        Gap {
            room: room_of(core, next),
            next: link_of(core, next),
        }
    } else {
        Gap { room: 0, next }
    }
}

/// The address of the first area at a place or above it.
pub fn next_area(core: &Core, at: u32) -> Option<u32>
    requires { (b : ℕ) × (h : ℕ) × (ss : List Span) × IsAbove core.now b h at ss }
    ensures { (b : ℕ) (h : ℕ) (ss : List Span) → IsAbove core.now b h at ss → result ≡ first_area at ss }
{
    let size = core.size();
    if at == size {
        return None;
    }
    if core.get(at).part(46, 2) != 3 {
        return Some(at + 1);
    }
    let room = room_of(core, at);
    if at + room == size {
        return None;
    }
    Some(at + room + 1)
}

/// What an area leaves.
pub fn vacated(core: &Core, address: u32) -> Vacancy
    requires { (low : ℕ) × (ss : List Span) × (a : Info) × IsDirectory core.now low ss × (area_at low ss address ≡ Some a) }
    ensures found { (low : ℕ) (ss : List Span) (a : Info) → IsDirectory core.now low ss → area_at low ss address ≡ Some a
        → LeavesHole low ss address a result }
    ensures facts { Vacates core.now result }
{
    let at = address - 1;
    let taken = words_of(core, at) + 2;
    let r = around(core, at);
    let t = hole_at(core, at + taken, r.next);
    Vacancy {
        before: r.before,
        room: r.room,
        at,
        size: taken + t.room,
        next: t.next,
    }
}
