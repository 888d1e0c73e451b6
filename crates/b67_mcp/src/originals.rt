//! Originals of arrays, and the chains that they keep.

ghost use Rattle.std.specs.Prelude.{◌≡◌, Some, length, slice_get};
ghost use Rattle.b67_ctl.specs.declared.descriptors.DataDesc.{DataDesc};
ghost use Rattle.b67_ctl.specs.Descriptors.{data_word, IsDataDesc};
ghost use Rattle.b67_backing.specs.Shelf.{Shelf, IsShelf};
ghost use Rattle.b67_mcp.specs.Lengths.{IsChain, freed_chain};

use b67_backing::Sectors;
use b67_core::Core;
use b67_ctl::DataDesc;

/// The original at a core address.
pub fn original_at(core: &Core, home: u32) -> DataDesc
    requires { (d : DataDesc) × IsDataDesc d × (slice_get core.now home ≡ Some (data_word d)) }
    ensures { (d : DataDesc) → IsDataDesc d → slice_get core.now home ≡ Some (data_word d) → result ≡ d }
{
    DataDesc::read(core.get(home))
}

/// Makes the sectors of a chain free. 0 is no chain.
pub fn give_kept(sectors: &mut Sectors, first: u32)
    requires { (st : Shelf) × IsShelf sectors.old st × IsChain st first }
    ensures row { (st : Shelf) → IsShelf sectors.old st → IsChain st first → IsShelf sectors.new (freed_chain first st) }
    ensures count { length sectors.new.links ≡ length sectors.old.links }
{
    if first != 0 {
        sectors.give(first);
    }
}
