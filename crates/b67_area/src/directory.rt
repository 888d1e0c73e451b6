//! The calls that make, change and free areas.

ghost use Rattle.std.specs.Prelude.{◌≡◌, ◌≢◌, ◌⊎◌, ℕ, ◌+◌, ◌-◌, ◌^◌, ◌<◌, ◌≤◌, Some, None, IfSome, IfNone, List, [], length, slice_get};
ghost use Rattle.b67_area.specs.declared.kinds.Info.{Info};
ghost use Rattle.b67_area.specs.Spans.{Span, spot, fill, address, fresh, without, area_at, first_area, area_after, keeping, with_kept, shortened, with_words, cut, left, over, but, InHole};
ghost use Rattle.b67_area.specs.Directory.{IsDirectory, OnlyHoles};

use crate::chain::{leave, link_of, linked, room_of};
use crate::kinds::{Info, Kind};
use crate::search::{find_hole, info_at, next_area, vacated, words_of};
use b67_core::Core;
use b67_ctl::{AreaTail, DIRECTORY, FIRST_DICTIONARY};
use b67_word::Word;

/// The areas of a core of `size` words, from `low` up.
#[derive(Clone, Copy, Debug, PartialEq, Eq)]
pub struct Areas {
    pub size: u32,
    pub low: u32,
}

impl Areas {
    /// Places an area at the front of the lowest hole that has room for it.
    pub fn place(&mut self, core: &mut Core, kind: Kind, words: u32, owner: u32) -> Option<u32>
        requires words { 1 ≤ words }
        requires owner { owner < 2 ^ 20 }
        requires directory { (ss : List Span) × IsDirectory core.old self.old.low ss }
        ensures same { self.new ≡ self.old }
        ensures row { (ss : List Span) → IsDirectory core.old self.old.low ss
            → (result ≡ address (spot (words + 2) self.old.low ss))
            × IsDirectory core.new self.old.low (fill (fresh kind words owner) ss) }
        ensures outside { (ss : List Span) → IsDirectory core.old self.old.low ss
            → OnlyHoles core.old core.new self.old.low ss }
        ensures areas { (ss : List Span) (x : ℕ) → IsDirectory core.old self.old.low ss
            → area_at self.old.low (fill (fresh kind words owner) ss) x ≡ over result (fresh kind words owner) x (area_at self.old.low ss x) }
        ensures taken { IfSome result (λ x. (ss : List Span) (i : ℕ) → IsDirectory core.old self.old.low ss
            → x ≤ i + 1 → i ≤ x + words → InHole self.old.low ss i) }
        ensures unchanged { IfNone result (core.new ≡ core.old) }
        ensures len { length core.new ≡ length core.old }
    {
        match find_hole(core, words) {
            None => None,
            Some(f) => {
                let a = Info {
                    kind,
                    words,
                    owner,
                    kept: 0,
                };
                let taken = words + 2;
                leave(core, f.before, f.at + taken, f.room - taken, f.next);
                core.set(f.at, a.head());
                core.set(f.at + (words + 1), a.tail());
                Some(f.at + 1)
            }
        }
    }

    /// Makes the words of an area a part of a hole.
    pub fn free(&mut self, core: &mut Core, address: u32)
        requires { (ss : List Span) × (a : Info) × IsDirectory core.old self.old.low ss × (area_at self.old.low ss address ≡ Some a) }
        ensures same { self.new ≡ self.old }
        ensures row { (ss : List Span) (a : Info) → IsDirectory core.old self.old.low ss → area_at self.old.low ss address ≡ Some a
            → IsDirectory core.new self.old.low (without self.old.low address ss) }
        ensures outside { (ss : List Span) (a : Info) → IsDirectory core.old self.old.low ss → area_at self.old.low ss address ≡ Some a
            → OnlyHoles core.old core.new self.old.low (without self.old.low address ss) }
        ensures areas { (ss : List Span) (x : ℕ) → area_at self.old.low (without self.old.low address ss) x
            ≡ but address x (area_at self.old.low ss x) }
        ensures len { length core.new ≡ length core.old }
    {
        let v = vacated(core, address);
        if v.before + v.room == v.at {
            core.set(
                v.before,
                linked(0xC00_0000 + u64::from(v.room + v.size), v.next),
            );
        } else {
            leave(core, v.before, v.at, v.size, v.next);
        }
    }

    /// Leaves an area only its first words. They stay in place, and so do its kind, its owner and the sector that it keeps.
    /// The words after its new tail become a hole, one with the hole after it.
    pub fn shrink(&mut self, core: &mut Core, address: u32, words: u32)
        requires some { 1 ≤ words }
        requires area { (ss : List Span) × (a : Info) × IsDirectory core.old self.old.low ss × (area_at self.old.low ss address ≡ Some a) × (words ≤ a.words) }
        ensures same { self.new ≡ self.old }
        ensures row { (ss : List Span) (a : Info) → IsDirectory core.old self.old.low ss → area_at self.old.low ss address ≡ Some a
            → IsDirectory core.new self.old.low (shortened self.old.low address words ss) }
        ensures outside { (ss : List Span) (a : Info) → IsDirectory core.old self.old.low ss → area_at self.old.low ss address ≡ Some a
            → (i : ℕ) → i ≢ DIRECTORY → i + 1 ≢ address → i ≢ address + words → (InHole self.old.low (shortened self.old.low address words ss) i → ⊥)
            → slice_get core.new i ≡ slice_get core.old i }
        ensures areas { (ss : List Span) (a : Info) (x : ℕ) → IsDirectory core.old self.old.low ss → area_at self.old.low ss address ≡ Some a
            → area_at self.old.low (shortened self.old.low address words ss) x ≡ with_words address words x (area_at self.old.low ss x) }
        ensures len { length core.new ≡ length core.old }
    {
        let whole = info_at(core, address - 1);
        let v = vacated(core, address);
        let a = Info { words, ..whole };
        let taken = words + 2;
        leave(core, v.before, v.at + taken, v.size - taken, v.next);
        core.set(v.at, a.head());
        core.set(v.at + (words + 1), a.tail());
    }

    /// What is known of an area.
    pub fn info(&self, core: &Core, address: u32) -> Info
        requires { (ss : List Span) × (a : Info) × IsDirectory core.now self.now.low ss × (area_at self.now.low ss address ≡ Some a) }
        ensures { (ss : List Span) (a : Info) → IsDirectory core.now self.now.low ss → area_at self.now.low ss address ≡ Some a → result ≡ a }
    {
        info_at(core, address - 1)
    }

    /// The lowest area's address. None if there is no area.
    pub fn first(&self, core: &Core) -> Option<u32>
        requires { (ss : List Span) × IsDirectory core.now self.now.low ss }
        ensures { (ss : List Span) → IsDirectory core.now self.now.low ss → result ≡ first_area self.now.low ss }
    {
        next_area(core, self.low)
    }

    /// The next area's address above an area. None if there is none.
    pub fn after(&self, core: &Core, address: u32) -> Option<u32>
        requires { (ss : List Span) × (a : Info) × IsDirectory core.now self.now.low ss × (area_at self.now.low ss address ≡ Some a) }
        ensures { (ss : List Span) (a : Info) → IsDirectory core.now self.now.low ss → area_at self.now.low ss address ≡ Some a
            → result ≡ area_after self.now.low ss address }
    {
        next_area(core, address + (words_of(core, address - 1) + 1))
    }

    /// Sets the first sector that an area keeps.
    pub fn keep(&mut self, core: &mut Core, address: u32, first: u32)
        requires area { (ss : List Span) × (a : Info) × IsDirectory core.old self.old.low ss × (area_at self.old.low ss address ≡ Some a) }
        requires first { first < 2 ^ 20 }
        ensures same { self.new ≡ self.old }
        ensures row { (ss : List Span) (a : Info) → IsDirectory core.old self.old.low ss → area_at self.old.low ss address ≡ Some a
            → IsDirectory core.new self.old.low (keeping self.old.low address first ss) }
        ensures outside { (ss : List Span) (a : Info) → IsDirectory core.old self.old.low ss → area_at self.old.low ss address ≡ Some a
            → (i : ℕ) → i ≢ address + a.words → slice_get core.new i ≡ slice_get core.old i }
        ensures areas { (ss : List Span) (x : ℕ) → area_at self.old.low (keeping self.old.low address first ss) x
            ≡ with_kept address first x (area_at self.old.low ss x) }
        ensures len { length core.new ≡ length core.old }
    {
        let words = words_of(core, address - 1);
        let tail = AreaTail { words, kept: first };
        core.set(address - 1 + (words + 1), tail.word());
    }

    /// Raises the lowest word of the directory.
    pub fn raise(&mut self, core: &mut Core, low: u32)
        requires { (ss : List Span) × IsDirectory core.old self.old.low ss
            × (self.old.low ≤ low) × (low ≤ length core.old) × ((x : ℕ) (a : Info) → area_at self.old.low ss x ≡ Some a → low < x) }
        ensures low { self.new ≡ record self.old { low = low } }
        ensures row { (ss : List Span) → IsDirectory core.old self.old.low ss
            → ((x : ℕ) (a : Info) → area_at self.old.low ss x ≡ Some a → low < x)
            → IsDirectory core.new low (cut (low - self.old.low) ss) }
        ensures outside { (ss : List Span) → IsDirectory core.old self.old.low ss
            → ((x : ℕ) (a : Info) → area_at self.old.low ss x ≡ Some a → low < x)
            → OnlyHoles core.old core.new self.old.low ss }
        ensures areas { (ss : List Span) (x : ℕ) → IsDirectory core.old self.old.low ss
            → ((y : ℕ) (a : Info) → area_at self.old.low ss y ≡ Some a → low < y)
            → area_at low (cut (low - self.old.low) ss) x ≡ area_at self.old.low ss x }
        ensures len { length core.new ≡ length core.old }
    {
        if low != self.low {
            let room = room_of(core, self.low);
            let next = link_of(core, self.low);
            leave(core, DIRECTORY, low, room - (low - self.low), next);
            self.low = low;
        }
    }

    /// Leaves no area.
    pub fn clear(&mut self, core: &mut Core)
        requires { (ss : List Span) × IsDirectory core.old self.old.low ss }
        ensures same { self.new ≡ self.old }
        ensures row { (ss : List Span) → IsDirectory core.old self.old.low ss
            → IsDirectory core.new self.old.low (left (length core.old - self.old.low) []) }
        ensures outside { (i : ℕ) → i ≢ DIRECTORY → i ≢ self.old.low → slice_get core.new i ≡ slice_get core.old i }
        ensures areas { (x : ℕ) → area_at self.old.low (left (length core.old - self.old.low) []) x ≡ None }
        ensures len { length core.new ≡ length core.old }
    {
        let size = core.size();
        leave(core, DIRECTORY, self.low, size - self.low, 0);
    }

    /// The directory of a core with no area.
    pub fn new(core: &mut Core, low: u32) -> Areas
        requires low { FIRST_DICTIONARY ≤ low }
        requires high { low ≤ length core.old }
        ensures low { result ≡ record { size = length core.old; low = low } }
        ensures row { IsDirectory core.new low (left (length core.old - low) []) }
        ensures outside { (i : ℕ) → (i < DIRECTORY) ⊎ (FIRST_DICTIONARY ≤ i) → i ≢ low → slice_get core.new i ≡ slice_get core.old i }
        ensures areas { (x : ℕ) → area_at low (left (length core.old - low) []) x ≡ None }
        ensures len { length core.new ≡ length core.old }
    {
        let size = core.size();
        core.set(DIRECTORY, linked(0, 0));
        for i in DIRECTORY + 1..FIRST_DICTIONARY {
            core.set(i, Word::of(0, 0));
        }
        leave(core, DIRECTORY, low, size - low, 0);
        Areas { size, low }
    }
}
