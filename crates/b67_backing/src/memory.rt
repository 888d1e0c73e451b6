//! Sectors in memory, some of whose calls fail.

ghost use Rattle.std.specs.Prelude.{List, ℕ, ◌≡◌, ◌↔◌, ◌≤◌, ◌<◌, ◌+◌, ◌^◌, ◌∷◌, ◌++◌, [], take, drop, min, length, IfOk, OnOk, OnErr, IsErr, IsTrue, Some, Contains, pos, ◌+ℤ◌};
ghost use Rattle.std.specs.Int.{saturate_signed, w64};
ghost use Rattle.b67_io.specs.Causes.{HasCause};
ghost use Rattle.b67_backing.specs.Held.{Tells, Becomes, Changes, Counts, SameBut, Sets, sector};

use crate::Backing;
use crate::copies::zeros;
use b67_word::{Failed, Numbers};
use std::alloc::{AllocError, Global};

/// Calls of one kind, and the numbers of those that fail, counted from 1.
#[derive(Drop)]
struct Plan {
    fails: Numbers,
    made: i64,
}

impl Plan {
    /// Counts a call, and says whether it fails.
    fn fails(&mut self) -> bool
        ensures made { self.new.made ≡ saturate_signed w64 (self.old.made +ℤ pos 1) }
        ensures same { self.new.fails ≡ self.old.fails }
        ensures fails { IsTrue result ↔ Contains self.old.fails self.new.made }
    {
        self.made = self.made.saturating_add(1);
        self.fails.as_slice().contains(&self.made)
    }
}

/// Sectors in memory, with lists of the numbers of the reads and of the writes that fail, each counted from 1. A failing
/// write stores the first 15 numbers.
#[derive(Drop)]
pub struct MemoryBacking {
    held: Vec<[u64; 30]>,
    reads: Plan,
    writes: Plan,
    calls: u64,
    faults: u64,
    ghost some: { 1 ≤ length held.items },
    ghost few: { length held.items < 2 ^ 20 },
}

/// The first 15 numbers of one sector, and the others of another.
fn torn(old: &[u64; 30], new: &[u64; 30]) -> [u64; 30]
    ensures { result ≡ take 15 new.now ++ drop 15 old.now }
{
    let mut sector = *old;
    sector[..15].copy_from_slice(&new[..15]);
    sector
}

impl MemoryBacking {
    ghost use Rattle.b67_backing.specs.Memory.{memory_sectors, failing_reads, failing_writes, reads_made, writes_made};
    ghost use Rattle.b67_backing.specs.Held.{blank};

    /// Sectors of zeros.
    pub fn new(
        alloc: Global,
        sectors: u32,
        fail_reads: Numbers,
        fail_writes: Numbers,
    ) -> Result<MemoryBacking, AllocError>
        requires low { 1 ≤ sectors }
        requires high { sectors < 2 ^ 20 }
        ensures zeros { IfOk result (λ b. memory_sectors b ≡ blank sectors) }
        ensures lists { IfOk result (λ b. (failing_reads b ≡ fail_reads) × (failing_writes b ≡ fail_writes)) }
        ensures made { IfOk result (λ b. (reads_made b ≡ pos 0) × (writes_made b ≡ pos 0)) }
        ensures calls { IfOk result (λ b. b.calls ≡ 0) }
        ensures faults { IfOk result (λ b. b.faults ≡ 0) }
    {
        Ok(MemoryBacking {
            held: zeros(alloc, sectors)?,
            reads: Plan {
                fails: fail_reads,
                made: 0,
            },
            writes: Plan {
                fails: fail_writes,
                made: 0,
            },
            calls: 0,
            faults: 0,
        })
    }

    /// How many reads and writes were made.
    pub fn calls(&self) -> u64
        ensures { result ≡ self.now.calls }
    {
        self.calls
    }
}

impl Backing for MemoryBacking {
    ghost use Rattle.b67_backing.specs.Memory.{memory_sectors, memory_told, memory_faults, memory_calls, failing_reads, failing_writes, reads_made, writes_made};

    ghost holds = { memory_told };

    ghost size = { λ b. length (memory_sectors b) };

    ghost faults = { memory_faults };

    ghost calls = { memory_calls };

    fn sectors(&self) -> u32 {
        self.held.len() as u32
    }

    fn read(&mut self, n: u32, into: &mut [u64; 30]) -> Result<(), Failed>
        requires low { 1 ≤ n }
        requires high { n ≤ length (memory_sectors self.old) }
        ensures fails { IsErr result ↔ Contains (failing_reads self.old) (reads_made self.new) }
        ensures made { reads_made self.new ≡ saturate_signed w64 (reads_made self.old +ℤ pos 1) }
        ensures writes { writes_made self.new ≡ writes_made self.old }
        ensures lists { (failing_reads self.new ≡ failing_reads self.old) × (failing_writes self.new ≡ failing_writes self.old) }
        ensures gives { OnOk result (Tells memory_told self.old (λ all. sector all n ≡ Some into.new)) }
        ensures same { Becomes memory_told self.old self.new (λ all. all) }
        ensures size { length (memory_sectors self.new) ≡ length (memory_sectors self.old) }
        ensures calls { Counts memory_calls self.old self.new }
        ensures calm { OnOk result (memory_faults self.new ≡ memory_faults self.old) }
        ensures cause { HasCause memory_faults self.old self.new result }
    {
        self.calls = self.calls.saturating_add(1);
        if self.reads.fails() {
            self.faults = self.faults.saturating_add(1);
            return Err(Failed);
        }
        *into = self.held[n as usize - 1];
        Ok(())
    }

    fn write(&mut self, n: u32, from: &[u64; 30]) -> Result<(), Failed>
        requires low { 1 ≤ n }
        requires high { n ≤ length (memory_sectors self.old) }
        ensures fails { IsErr result ↔ Contains (failing_writes self.old) (writes_made self.new) }
        ensures half { OnErr result ((old : List ℕ) → sector (memory_sectors self.old) n ≡ Some old
            → sector (memory_sectors self.new) n ≡ Some (take 15 from.now ++ drop 15 old)) }
        ensures made { writes_made self.new ≡ saturate_signed w64 (writes_made self.old +ℤ pos 1) }
        ensures reads { reads_made self.new ≡ reads_made self.old }
        ensures lists { (failing_reads self.new ≡ failing_reads self.old) × (failing_writes self.new ≡ failing_writes self.old) }
        ensures sets { OnOk result (Changes memory_told self.old self.new (Sets n from.now)) }
        ensures leaves { OnErr result (Changes memory_told self.old self.new (SameBut (n ∷ []))) }
        ensures size { length (memory_sectors self.new) ≡ length (memory_sectors self.old) }
        ensures calls { Counts memory_calls self.old self.new }
        ensures calm { OnOk result (memory_faults self.new ≡ memory_faults self.old) }
        ensures cause { HasCause memory_faults self.old self.new result }
    {
        self.calls = self.calls.saturating_add(1);
        if self.writes.fails() {
            self.faults = self.faults.saturating_add(1);
            self.held[n as usize - 1] = torn(&self.held[n as usize - 1], from);
            return Err(Failed);
        }
        self.held[n as usize - 1] = *from;
        Ok(())
    }
}
