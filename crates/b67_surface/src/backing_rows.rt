//! Sectors and devices in memory.

ghost use Rattle.b67_backing.specs.Shelf.{IsShelf, all_free};
ghost use Rattle.std.specs.Prelude.{◌≡◌, ◌+◌, ◌<◌, ◌≤◌, ◌^◌, length};

use crate::given::{device_of, same};
use b67_backing::{Backing, CrookedBacking, HonestBacking, Sectors};
use b67_core::Core;
use b67_word::{Failed, Word};
use std::alloc::Global;
use std::process::Abort;

/// Takes all `count` sectors as one chain, and gives them back.
fn one_chain(rt: &impl Abort, alloc: Global, count: u32)
    requires low { 1 ≤ count }
    requires high { count < 2 ^ 20 }
{
    let Ok(mut sectors) = Sectors::new(alloc, count) else {
        panic!(rt; "memory")
    };
    same(rt, sectors.count(), count);
    let Some(first) = sectors.take(count) else {
        panic!(rt; "not taken")
    };
    same(rt, (first, sectors.free_count()), (1, 0));
    sectors.give(first);
    same(rt, sectors.free_count(), count);
    same(rt, sectors.take(count), Some(1));
    same(rt, sectors.take(1), None);
}

#[test]
fn all_sectors_make_a_chain(rt: HostRuntime) {
    one_chain(&rt, rt.alloc(), 1);
    one_chain(&rt, rt.alloc(), 2);
    one_chain(&rt, rt.alloc(), 1_048_575);
}

/// 80 words of core, of which the first 40 are written.
fn written(rt: &impl Abort, alloc: Global) -> Core
    ensures { length result ≡ 80 }
{
    let mut core = Core::new(alloc, 80).expect(rt, "memory");
    core.fill(0, 39, Word::of(7, 5));
    core.set(39, Word::of(7, 0xffff_ffff_ffff));
    core
}

/// Three free sectors.
fn three(rt: &impl Abort, alloc: Global) -> Sectors
    ensures links { length result.links ≡ 4 }
    ensures free { IsShelf result (all_free 3) }
{
    match Sectors::new(alloc, 3) {
        Ok(sectors) => sectors,
        Err(_) => panic!(rt; "memory"),
    }
}

/// Saves the first 40 words and restores them behind these. The two answers.
fn copied<B: Backing>(
    rt: &impl Abort,
    core: &mut Core,
    sectors: &mut Sectors,
    backing: &mut B,
) -> [Result<(), Failed>; 2]
    requires core { length core.old ≡ 80 }
    requires free { IsShelf sectors.old (all_free 3) }
    requires size { B.size backing.old + 1 ≡ length sectors.old.links }
    ensures { length core.new ≡ 80 }
{
    let Some(first) = sectors.take(2) else {
        panic!(rt; "not taken")
    };
    let saved = sectors.save(first, core, 0, 40, backing);
    let restored = sectors.restore(first, core, 40, 40, 3, backing);
    [saved, restored]
}

/// Copies words over a device of which a read and a write fail: whether they are saved and restored.
fn turns(rt: &impl Abort, alloc: Global, read: i64, write: i64) -> (bool, bool) {
    let mut core = written(rt, alloc);
    let mut sectors = three(rt, alloc);
    let mut backing = device_of(rt, alloc, 3, read, write);
    let [saved, restored] = copied(rt, &mut core, &mut sectors, &mut backing);
    if saved.is_ok() && restored.is_ok() {
        same(rt, core.get(40), Word::of(3, 5));
        same(rt, core.get(79), Word::of(3, 0xffff_ffff_ffff));
        same(rt, backing.calls(), 4);
    }
    (saved.is_ok(), restored.is_ok())
}

#[test]
fn reads_and_writes_fail_by_their_numbers(rt: HostRuntime) {
    let alloc = rt.alloc();
    same(&rt, turns(&rt, alloc, 0, 0), (true, true));
    same(&rt, turns(&rt, alloc, 3, 3), (true, true));
    same(&rt, turns(&rt, alloc, 1, 0), (true, false));
    same(&rt, turns(&rt, alloc, 2, 0), (true, false));
    same(&rt, turns(&rt, alloc, 0, 1), (false, true));
    same(&rt, turns(&rt, alloc, 2, 2), (false, false));
}

/// These numbers stand in the halves of a sector.
fn has_halves(rt: &impl Abort, sector: &[u64; 30], first: u64, last: u64) {
    same(rt, &sector[..15], [first; 15].as_slice());
    same(rt, &sector[15..], [last; 15].as_slice());
}

#[test]
fn a_failed_write_stores_half_a_sector(rt: HostRuntime) {
    let alloc = rt.alloc();
    let mut backing = device_of(&rt, alloc, 1, 0, 2);
    same(&rt, backing.write(1, &[8; 30]).is_ok(), true);
    same(&rt, backing.write(1, &[9; 30]).is_ok(), false);
    let mut sector = [0; 30];
    same(&rt, backing.read(1, &mut sector).is_ok(), true);
    has_halves(&rt, &sector, 9, 8);
}

#[test]
fn an_honest_device_keeps_sectors(rt: HostRuntime) {
    let mut backing = HonestBacking::new(rt.alloc(), 2).expect(&rt, "memory");
    same(&rt, backing.sectors(), 2);
    same(&rt, backing.write(2, &[7; 30]).is_ok(), true);
    let mut sector = [0; 30];
    same(&rt, backing.read(2, &mut sector).is_ok(), true);
    same(&rt, sector, [7; 30]);
}

/// What such a device gives stands in each number.
fn is_crooked(rt: &impl Abort, gives: u64) {
    let mut backing = CrookedBacking::new(1_048_575, gives);
    same(rt, backing.sectors(), 1_048_575);
    same(rt, backing.write(1_048_575, &[7; 30]).is_ok(), true);
    let mut sector = [8; 30];
    same(rt, backing.read(1_048_575, &mut sector).is_ok(), true);
    same(rt, sector, [gives; 30]);
}

#[test]
fn a_crooked_device_keeps_nothing(rt: HostRuntime) {
    is_crooked(&rt, 0);
    is_crooked(&rt, 0xffff_ffff_ffff_ffff);
}
