//! The laws: what each test tells.

ghost use Rattle.b67_image_shape.specs.Laws.{TablesAreTested, FixedWordsAreTested, CriticalMarksAreTested, ItemsAreExact};

use b67_layout_shown::laws::{directories_are_read, stacks_are_read};

/// The tables of a machine pass their test exactly if they are as they should be.
pub fn tables_are_tested()
    ensures { TablesAreTested }
{}

/// The words of core that the tables tell pass their test exactly if they stand there.
pub fn fixed_words_are_tested()
    ensures { FixedWordsAreTested }
{}

/// The greatest critical displacements pass their test exactly if they are as they should be.
pub fn critical_marks_are_tested()
    ensures { CriticalMarksAreTested }
{}

/// A machine represents what it shows exactly if it has all the items.
pub fn items_are_exact()
    ensures { ItemsAreExact }
{
    stacks_are_read();
    directories_are_read();
}
