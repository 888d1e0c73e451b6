//! What made each word, mark and return word of a state.

ghost use Rattle.b67_law.specs.Made.{EachRowMakesItsWords};

/// After the row of any operator, intrinsics included, each word of a frame, each mark and each
/// return was there before, unchanged, or is one that this operator makes.
pub fn each_row_makes_its_words()
    ensures { EachRowMakesItsWords }
{}
