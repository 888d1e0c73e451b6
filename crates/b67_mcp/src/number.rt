//! The number that an argument represents.

ghost use Rattle.std.specs.Prelude.{◌≡◌};
ghost use Rattle.b67_mcp.specs.Calls.{operand_number};

use b67_word::{Fault, Word};

/// The number of a whole operand. INVALID OPERAND where a word is none, EXPONENT where it isn't whole.
pub fn whole(w: Word) -> Result<i64, Fault>
    ensures { result ≡ operand_number w }
{
    if w.tag() != 0 {
        return Err(Fault::InvalidOperand);
    }
    w.value().ok_or(Fault::Exponent)
}
