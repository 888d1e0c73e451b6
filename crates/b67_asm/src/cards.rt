ghost use Rattle.b67_model_text.specs.Asm as asm;
ghost use Rattle.std.specs.Prelude.{◌≡◌, ◌≤◌, false, length, drop};
ghost use Rattle.b67_asm.specs.Blocks.{has_entry_card};

use b67_model_text::{Kind, Line};

// The cards of a segment or a data row.

/// Whether a card of this kind begins a segment or a data row.
pub fn is_head(kind: Kind) -> bool
    ensures { result ≡ asm.is_head kind }
{
    match kind {
        Kind::Segment | Kind::Row => true,
        Kind::Numbers | Kind::Entry | Kind::Operator => false,
    }
}

// The lines from a place on.
fn rest_from(lines: &[Line], from: usize) -> &[Line]
    requires { from ≤ length lines.now }
    ensures rest { result.now ≡ drop from lines.now }
    ensures short { length result.now ≤ length lines.now }
{
    &lines[from..]
}

/// The cards of the segment or row at the front of these.
pub fn own_of(lines: &[Line]) -> &[Line]
    ensures own { result.now ≡ asm.own lines.now }
    ensures short { length result.now ≤ length lines.now }
{
    let mut count = 0;
    while count < lines.len() && !is_head(lines[count].kind) {
        count += 1;
    }
    &lines[..count]
}

/// The cards of the segment or row whose own card stands before a place.
pub fn own_from(lines: &[Line], from: usize) -> &[Line]
    requires { from ≤ length lines.now }
    ensures own { result.now ≡ asm.own (drop from lines.now) }
    ensures short { length result.now ≤ length lines.now }
    ensures plain { has_entry_card lines.now ≡ false → has_entry_card result.now ≡ false }
{
    own_of(rest_from(lines, from))
}
