//! The words of an area that go to sectors.

ghost use Rattle.std.specs.Prelude.{◌≡◌, ◌≢◌, ◌⊎◌, ℕ, ◌+◌, Err, length, map, slice_range};
ghost use Rattle.b67_word.specs.Numbers.{number};
ghost use Rattle.b67_backing.specs.Shelf.{Shelf, IsShelf, HasChain};
ghost use Rattle.b67_backing.specs.Held.{sectors_for};
ghost use Rattle.b67_backing.specs.declared.SpaceFault.TheVariants.{NoCore, BackingFull, BackingFault};
ghost use Rattle.b67_io.specs.Causes.{Rose};
ghost use Rattle.b67_layout.specs.Machine.{DeviceAfterCalls};
ghost use Rattle.b67_overlay.specs.Written.{IsPieceOf, WritesOut};

use b67_backing::{Backing, Sectors, SpaceFault, sectors_needed};
use b67_core::Core;

/// Writes words of core to the chain that is kept, or to a new one if none is, and answers its first sector. A chain that
/// was taken and not written is given back.
pub fn write_out<B: Backing>(
    core: &Core,
    sectors: &mut Sectors,
    backing: &mut B,
    at: u32,
    words: u32,
    kept: u32,
) -> Result<u32, SpaceFault>
    requires words { IsPieceOf core.now at words }
    requires chain { (st : Shelf) × IsShelf sectors.old st × ((kept ≡ 0) ⊎ HasChain sectors.old st kept (sectors_for words)) }
    requires same { B.size backing.old + 1 ≡ length sectors.old.links }
    ensures row { (st : Shelf) → IsShelf sectors.old st
        → WritesOut B.holds st kept words (map number (slice_range core.now at (at + words))) result sectors.old sectors.new backing.old backing.new }
    ensures no_core { (need size : ℕ) → result ≢ Err (NoCore need size) }
    ensures count { length sectors.new.links ≡ length sectors.old.links }
    ensures device { DeviceAfterCalls B.holds B.size B.calls B.faults backing.old backing.new }
    ensures cause { result ≡ Err BackingFault → Rose B.faults backing.old backing.new }
{
    if kept != 0 {
        return match sectors.save(kept, core, at, words, backing) {
            Ok(()) => Ok(kept),
            Err(_) => Err(SpaceFault::BackingFault),
        };
    }
    let wants = sectors_needed(words);
    let free = sectors.free_count();
    match sectors.take(wants) {
        None => Err(SpaceFault::BackingFull { wants, free }),
        Some(first) => match sectors.save(first, core, at, words, backing) {
            Ok(()) => Ok(first),
            Err(_) => {
                sectors.give(first);
                Err(SpaceFault::BackingFault)
            }
        },
    }
}
