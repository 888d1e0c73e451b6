//! Which sectors of a device are free, and the chains of those that aren't.

ghost use Rattle.std.specs.Prelude.{◌≡◌, ◌≢◌, ◌⊎◌, nat_lt, ℕ, ◌+◌, ◌*◌, ◌<◌, ◌≤◌, ◌^◌, List, [], IfOk, IfSome, IfNone, MatchOption, Some, OnOk, length, map, option_map, slice_get, slice_range, take, if◌then◌else◌, ◌==◌};
ghost use Rattle.b67_word.specs.Tagged.{Tagged};
ghost use Rattle.b67_word.specs.Numbers.{number};
ghost use Rattle.b67_io.specs.Causes.{HasCause};
ghost use Rattle.b67_backing.specs.Shelf.{Table, Shelf, IsShelf, HasChain, chain_of, taken, given, chains_joined, first, last, all_free, times};
ghost use Rattle.b67_backing.specs.Held.{Tells, Changes, SameBut, Stores, Holds, AreTagged, OnlyWords, WasCalled, WasRead, sectors_for, under};
ghost use Rattle.b67_backing.specs.Links.{AreLinksOf, AreFreeMarks, links_in, free_sectors, table_link, link_of, unlinked};
ghost use Rattle.b67_backing.specs.Extending.{ExtendMeets, KeepsDevice};

use crate::chaining::are_of_chains;
use crate::copies::{pack, unpack};
use crate::windows::{clear, mark_within};
use crate::{Backing, SpaceFault};
use b67_core::Core;
use b67_word::{Failed, Word};
use std::alloc::{AllocError, Global};
use std::marker::Model;

/// How many sectors so many words take, 30 words to a sector.
pub fn sectors_needed(words: u32) -> u32
    ensures { result ≡ sectors_for words }
{
    words.div_ceil(30)
}

/// The sectors of a device: which follows which, the first free one at 0.
#[derive(Drop)]
pub struct Sectors {
    links: Vec<u32>,
    free: u32,
}

impl Model for Sectors {
    ghost use Rattle.b67_backing.specs.Shelf.{Table, Shelf, IsShelf};

    ghost Value = { Table };

    ghost view = { λ s. record { links = s.links.items; free = s.free } };

    ghost invariant = { λ s. (st : Shelf) × IsShelf (record { links = s.links.items; free = s.free }) st };
}

impl Sectors {
    /// Sectors that are all free.
    pub fn new(alloc: Global, sectors: u32) -> Result<Sectors, AllocError>
        requires low { 1 ≤ sectors }
        requires high { sectors < 2 ^ 20 }
        ensures { IfOk result (λ s. (length s.links ≡ sectors + 1) × IsShelf s (all_free sectors)) }
    {
        let mut links = Vec::new(alloc);
        for i in 0..sectors {
            links.push(i + 1)?;
        }
        links.push(0)?;
        Ok(Sectors {
            links,
            free: sectors,
        })
    }

    /// Sectors in chains that have these links, those of the sectors from 1 on: 0 of a free sector, its own number of the
    /// last of a chain, else the next one's. The other sectors are free. None exactly if no disjoint chains have them.
    pub fn of_links(alloc: Global, links: &[u32]) -> Result<Option<Sectors>, AllocError>
        ensures some { IfOk result (λ found. IfSome found (λ s. (ks : List (List ℕ)) × AreLinksOf links.now ks)) }
        ensures each { IfOk result (λ found. IfSome found (λ s. (ks : List (List ℕ)) → AreLinksOf links.now ks
            → IsShelf s (record { free = unlinked 1 links.now; chains = ks }))) }
        ensures told { IfOk result (λ found. IfSome found (λ s. links_in s ≡ links.now)) }
        ensures none { IfOk result (λ found. IfNone found ((ks : List (List ℕ)) → AreLinksOf links.now ks → ⊥)) }
    {
        let held = are_of_chains(alloc, links)?;
        if !held {
            return Ok(None);
        }
        let mut table = vec![in alloc; 0u32; links.len() + 1]?;
        let mut first = 0u32;
        let mut free = 0u32;
        'down: for k in 0..links.len() {
            let n = links.len() - k;
            let link = links[n - 1];
            if link == 0 {
                table[n] = first;
                first = n as u32;
                free += 1;
            } else if link as usize != n {
                table[n] = link;
            }
        }
        table[0] = first;
        Ok(Some(Sectors { links: table, free }))
    }

    /// The number of sectors, free or not.
    pub fn count(&self) -> u32
        ensures { result + 1 ≡ length self.now.links }
    {
        self.links.len() as u32 - 1
    }

    /// The number of free sectors.
    pub fn free_count(&self) -> u32
        ensures { (st : Shelf) → IsShelf self.now st → result ≡ length st.free }
    {
        self.free
    }

    /// The sector after a sector; after 0 the first free one.
    fn follow(&self, at: u32) -> u32
        requires { at < length self.now.links }
        ensures { slice_get self.now.links at ≡ Some result }
    {
        self.links[at as usize]
    }

    /// Whether a sector is free. As many links are followed as there are free sectors.
    fn is_free(&self, n: u32) -> bool
        ensures { result ≡ nat_lt 0 (times n (free_sectors self.now)) }
    {
        let mut at = 0;
        'free: for _i in 0..self.free {
            at = self.follow(at);
            if at == n {
                return true;
            }
        }
        false
    }

    /// The link of a sector: 0 if it is free, its own number if it is the last of its chain, else the next one's.
    pub fn link(&self, n: u32) -> u32
        requires low { 1 ≤ n }
        requires high { n < length self.now.links }
        ensures value { result ≡ table_link self.now n }
        ensures chain { (st : Shelf) → IsShelf self.now st → result ≡ link_of n st.chains }
    {
        let free = self.is_free(n);
        self.link_marked(n, free)
    }

    /// The link of a sector, given whether it is free. No other link is followed.
    pub fn link_marked(&self, n: u32, free: bool) -> u32
        requires low { 1 ≤ n }
        requires high { n < length self.now.links }
        requires free { free ≡ nat_lt 0 (times n (free_sectors self.now)) }
        ensures { result ≡ table_link self.now n }
    {
        if free {
            return 0;
        }
        let next = self.follow(n);
        if next == 0 {
            return n;
        }
        next
    }

    /// Marks which sectors of a window are free: the mark at place i is that of sector first + i, and a number beyond the
    /// last sector isn't marked. Each free sector's link is followed once, however wide the window is.
    pub fn mark_free(&self, first: u32, marks: &mut [bool])
        ensures length { length marks.new ≡ length marks.old }
        ensures each { AreFreeMarks self.now first marks.new }
    {
        clear(marks);
        let mut at = 0;
        'free: for _i in 0..self.free {
            at = self.follow(at);
            mark_within(marks, first, at);
        }
    }

    /// The sector after n free ones.
    fn nth(&self, n: u32) -> u32
        requires { (st : Shelf) × IsShelf self.now st × (n ≤ self.now.free) }
        ensures value { (st : Shelf) → IsShelf self.now st → result ≡ last 0 (take n st.free) }
        ensures inside { result < length self.now.links }
    {
        let mut at = 0;
        for _i in 0..n {
            at = self.follow(at);
        }
        at
    }

    /// Makes a chain of n free sectors, and answers its first. No other chain and no other free sector is touched, and
    /// only n links are followed. None, with nothing changed, if fewer than n sectors are free.
    pub fn take(&mut self, n: u32) -> Option<u32>
        requires { 1 ≤ n }
        ensures row { (st : Shelf) → IsShelf self.old st
            → MatchOption result (length st.free < n) (λ x. (n ≤ length st.free) × (x ≡ first st.free) × IsShelf self.new (taken n st)) }
        ensures chain { IfSome result (λ x. (st : Shelf) → IsShelf self.old st → HasChain self.new (taken n st) x n) }
        ensures chains { IfSome result (λ x. (st : Shelf) (y : ℕ) → IsShelf self.old st
            → chain_of y (taken n st).chains ≡ (if x == y then take n st.free else chain_of y st.chains)) }
        ensures unchanged { IfNone result (self.new ≡ self.old) }
        ensures count { length self.new.links ≡ length self.old.links }
    {
        if self.free < n {
            return None;
        }
        let first = self.follow(0);
        let last = self.nth(n);
        self.links[0] = self.follow(last);
        self.links[last as usize] = 0;
        self.free -= n;
        Some(first)
    }

    /// The last sector of a chain, and how many sectors the chain has.
    fn last_of(&self, first: u32) -> Tail
        requires { (st : Shelf) × IsShelf self.now st × (1 ≤ length (chain_of first st.chains)) }
        ensures value { (st : Shelf) → IsShelf self.now st → 1 ≤ length (chain_of first st.chains)
            → (result.last ≡ last 0 (chain_of first st.chains)) × (result.count ≡ length (chain_of first st.chains)) }
        ensures inside { result.last < length self.now.links }
        ensures room { self.now.free + result.count < length self.now.links }
    {
        let mut at = first;
        for i in 0..self.count() {
            let next = self.follow(at);
            if next == 0 {
                return Tail {
                    last: at,
                    count: i + 1,
                };
            }
            at = next;
        }
        unreachable!()
    }

    /// Makes the sectors of a chain free. No other chain and no other free sector is touched, and only the links of that
    /// chain are followed.
    pub fn give(&mut self, first: u32)
        requires { (st : Shelf) × IsShelf self.old st × (1 ≤ length (chain_of first st.chains)) }
        ensures row { (st : Shelf) → IsShelf self.old st → 1 ≤ length (chain_of first st.chains)
            → IsShelf self.new (given first st) }
        ensures chains { (st : Shelf) (x : ℕ) → IsShelf self.old st → 1 ≤ length (chain_of first st.chains)
            → chain_of x (given first st).chains ≡ (if first == x then [] else chain_of x st.chains) }
        ensures count { length self.new.links ≡ length self.old.links }
    {
        let tail = self.last_of(first);
        self.links[tail.last as usize] = self.follow(0);
        self.links[0] = first;
        self.free += tail.count;
    }

    /// Makes the sectors of another chain the last ones of a chain. No other chain is touched, and only the links of the
    /// first chain are followed.
    fn join(&mut self, first: u32, more: u32)
        requires apart { first ≢ more }
        requires chains { (st : Shelf) × IsShelf self.old st × (1 ≤ length (chain_of first st.chains)) × (1 ≤ length (chain_of more st.chains)) }
        ensures row { (st : Shelf) → IsShelf self.old st → 1 ≤ length (chain_of first st.chains) → 1 ≤ length (chain_of more st.chains)
            → IsShelf self.new (chains_joined first more st) }
        ensures count { length self.new.links ≡ length self.old.links }
    {
        let tail = self.last_of(first);
        self.links[tail.last as usize] = more;
    }

    /// Writes words to the sectors of a chain, 30 to a sector, and zeros after them up to the end of the last one.
    fn fill<B: Backing>(
        &self,
        first: u32,
        sectors: usize,
        from: &[Word],
        backing: &mut B,
    ) -> Result<(), Failed>
        requires chain { (st : Shelf) × HasChain self.now st first sectors }
        requires some { 1 ≤ sectors }
        requires room { length from.now ≤ 30 * sectors }
        requires same { B.size backing.old + 1 ≡ length self.now.links }
        ensures stores { OnOk result ((st : Shelf) → HasChain self.now st first sectors
            → Changes B.holds backing.old backing.new (Stores (chain_of first st.chains) (map number from.now))) }
        ensures others { (st : Shelf) → HasChain self.now st first sectors
            → Changes B.holds backing.old backing.new (SameBut (chain_of first st.chains)) }
        ensures device { WasCalled B.size B.calls B.faults backing.old backing.new result }
    {
        let mut at = first;
        for j in 0..sectors {
            backing.write(at, &pack(from, 30 * j))?;
            at = self.follow(at);
        }
        Ok(())
    }

    /// Writes words to a chain, 30 to a sector. What is left of its last sector is filled with zeros.
    pub fn store<B: Backing>(
        &self,
        first: u32,
        from: &[Word],
        backing: &mut B,
    ) -> Result<(), Failed>
        requires chain { (st : Shelf) × HasChain self.now st first (sectors_for (length from.now)) }
        requires some { 1 ≤ length from.now }
        requires same { B.size backing.old + 1 ≡ length self.now.links }
        ensures stores { OnOk result ((st : Shelf) → HasChain self.now st first (sectors_for (length from.now))
            → Changes B.holds backing.old backing.new (Stores (chain_of first st.chains) (map number from.now))) }
        ensures others { (st : Shelf) → HasChain self.now st first (sectors_for (length from.now))
            → Changes B.holds backing.old backing.new (SameBut (chain_of first st.chains)) }
        ensures device { WasCalled B.size B.calls B.faults backing.old backing.new result }
    {
        self.fill(first, from.len().div_ceil(30), from, backing)
    }

    /// Writes words of core to a chain, 30 to a sector. What is left of its last sector is filled with zeros.
    pub fn save<B: Backing>(
        &self,
        first: u32,
        core: &Core,
        at: u32,
        words: u32,
        backing: &mut B,
    ) -> Result<(), Failed>
        requires chain { (st : Shelf) × HasChain self.now st first (sectors_for words) }
        requires some { 1 ≤ words }
        requires inside { at + words ≤ length core.now }
        requires same { B.size backing.old + 1 ≡ length self.now.links }
        ensures stores { OnOk result ((st : Shelf) → HasChain self.now st first (sectors_for words)
            → Changes B.holds backing.old backing.new
            (Stores (chain_of first st.chains) (map number (slice_range core.now at (at + words))))) }
        ensures others { (st : Shelf) → HasChain self.now st first (sectors_for words)
            → Changes B.holds backing.old backing.new (SameBut (chain_of first st.chains)) }
        ensures device { WasCalled B.size B.calls B.faults backing.old backing.new result }
    {
        self.store(first, core.words(at, words), backing)
    }

    /// Makes the chain of `have` words one of `want` words: it goes on through free sectors, which are filled with zeros.
    /// `BackingFull`, with nothing changed, occurs exactly if fewer sectors are free than are lacking; `BackingFault`
    /// only if the device failed, and the sectors that were free are then free again.
    pub fn extend<B: Backing>(
        &mut self,
        first: u32,
        have: u32,
        want: u32,
        backing: &mut B,
    ) -> Result<(), SpaceFault>
        requires some { 1 ≤ have }
        requires order { have ≤ want }
        requires chain { (st : Shelf) × HasChain self.old st first (sectors_for have) }
        requires same { B.size backing.old + 1 ≡ length self.old.links }
        ensures row { (st : Shelf) → HasChain self.old st first (sectors_for have)
            → ExtendMeets B.holds backing.old backing.new self.old self.new st first have want result }
        ensures count { length self.new.links ≡ length self.old.links }
        ensures device { KeepsDevice B.size B.calls B.faults backing.old backing.new result }
    {
        let wants = sectors_needed(want) - sectors_needed(have);
        if wants == 0 {
            return Ok(());
        }
        let free = self.free_count();
        match self.take(wants) {
            None => Err(SpaceFault::BackingFull { wants, free }),
            Some(more) => match self.fill(more, wants as usize, &[], backing) {
                Ok(()) => {
                    self.join(first, more);
                    Ok(())
                }
                Err(_) => {
                    self.give(more);
                    Err(SpaceFault::BackingFault)
                }
            },
        }
    }

    /// Reads words into core from a chain, each as the word of its number's low 48 bits under a tag.
    pub fn restore<B: Backing>(
        &self,
        first: u32,
        core: &mut Core,
        at: u32,
        words: u32,
        tag: u8,
        backing: &mut B,
    ) -> Result<(), Failed>
        requires chain { (st : Shelf) × HasChain self.now st first (sectors_for words) }
        requires some { 1 ≤ words }
        requires inside { at + words ≤ length core.old }
        requires tag { tag < 8 }
        requires same { B.size backing.old + 1 ≡ length self.now.links }
        ensures gives { OnOk result ((st : Shelf) → HasChain self.now st first (sectors_for words)
            → Tells B.holds backing.old (λ all. (numbers : List ℕ) → length numbers ≡ words
            → Holds all (chain_of first st.chains) 0 numbers
            → (i : ℕ) → i < words → slice_get core.new (at + i) ≡ option_map (under tag) (slice_get numbers i))) }
        ensures words { OnOk result (AreTagged core.new at words tag) }
        ensures rest { OnlyWords at words core.old core.new }
        ensures device { WasRead B.holds B.size B.calls B.faults backing.old backing.new result }
    {
        let _size = core.size();
        let mut from = first;
        for j in 0..sectors_needed(words) {
            let mut buffer = [0u64; 30];
            backing.read(from, &mut buffer)?;
            let n = (words - 30 * j).min(30);
            unpack(core, at + 30 * j, n, tag, &buffer);
            from = self.follow(from);
        }
        Ok(())
    }
}

/// The end of a chain.
#[derive(Clone, Copy, Debug, PartialEq, Eq)]
struct Tail {
    last: u32,
    count: u32,
}
