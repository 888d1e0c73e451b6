//! The words of core have 48 bits.

ghost use Rattle.b67_image_shape.specs.CellWalk.{AreSmall};

use b67_core::Core;

/// Each word of core has 48 bits.
pub fn words_are_small(core: &Core)
    ensures { AreSmall core.now }
{
    'each: for at in 0..core.size() {
        let _w = core.get(at);
    }
}
