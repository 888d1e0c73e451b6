//! What the table of marks needs and tells.

ghost use Rattle.b67_image_shape.specs.TableLaws.{SlotsAreThere, TablesMark};

/// Over tables and fixed words as they should be, live tasks have slots of some words.
pub fn slots_are_there()
    ensures { SlotsAreThere }
{}

/// Over stacks that stand, the table marks the objects that are shown.
pub fn tables_mark()
    ensures { TablesMark }
{}
