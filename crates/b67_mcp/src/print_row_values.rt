//! The values of a row in core.

ghost use Rattle.std.specs.Prelude.{◌≡◌, ◌<◌, ◌^◌, nat_abs, Some, ◌≢◌, None};
ghost use Rattle.b67_word.specs.Operands.{number_of};
ghost use Rattle.b67_mcp.specs.Texts.{values_of, is_some};

use b67_word::Word;

/// The number of a word that is a whole operand.
pub(crate) fn value_in(w: Word) -> i64
    requires { number_of w ≢ None }
    ensures value { number_of w ≡ Some result }
    ensures small { nat_abs result < 2 ^ 39 }
{
    match w.value() {
        Some(value) => value,
        None => unreachable!(),
    }
}

/// Whether each word is a whole operand.
pub(crate) fn are_whole(row: &[Word]) -> bool
    ensures { result ≡ is_some (values_of row.now) }
{
    for w in row {
        match w.value() {
            Some(_) => {}
            None => return false,
        }
    }
    true
}
