//! What the machine reads of assembled code.

ghost use Rattle.b67_law_examples.specs.Operators.{OperatorsAreRead};
ghost use Rattle.b67_law_examples.specs.Listing.{CardsAreRead};

/// In the code of any operators whose numbers are within their bits these operators are read in their order, the first
/// at 0:0 and each at the place after the one before, with NVLD after the last up to a whole word.
pub fn operators_are_read()
    ensures { OperatorsAreRead }
{}

/// In the code of each assembled segment the operators of its cards are read in their order, the first at 0:0 and each
/// at the place after the one before, with NVLD after the last up to a whole word. A label means the place at which
/// the operator of its card is read, and a branch goes there. The segment's entries are the places of the labels that its
/// ENTRY cards name, in their order; an MPCW's procedure begins at 0:0, or at the place of its label in the segment that
/// it names.
pub fn cards_are_read()
    ensures { CardsAreRead }
{}
