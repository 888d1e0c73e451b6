//! Copies of what a deck holds.

ghost use Rattle.std.specs.Prelude.{◌≡◌, ◌<◌, ◌≤◌, ◌^◌, IsTrue, IfOk, length};
ghost use Rattle.std.specs.List.{list_all};
ghost use Rattle.std.specs.Char.{is_ascii};

use b67_model_text::{Name, Switches};
use b67_word::Numbers;
use std::alloc::{AllocError, Global};

/// The same name once more.
pub fn copied_name(name: &Name) -> Name
    requires short { length name.now ≤ 16 }
    requires ascii { IsTrue (list_all is_ascii name.now) }
    ensures { result ≡ name.now }
{
    Name::new(name.as_str().as_bytes())
}

/// The same numbers once more. Refused where memory is refused, and where there are 2 ^ 32 of them or more, since the
/// tables count them in 32 bits; a deck, which is at most 4,194,304 bytes, never has so many.
pub fn copied_numbers(alloc: Global, numbers: &Numbers) -> Result<Numbers, AllocError>
    ensures same { IfOk result (λ copy. copy ≡ numbers.now) }
    ensures countable { IfOk result (λ copy. length copy < 2 ^ 32) }
{
    if numbers.as_slice().len() > 4_294_967_295 {
        return Err(AllocError);
    }
    let mut copy = Numbers::new(alloc);
    'numbers: for number in numbers.as_slice() {
        copy.push(*number)?;
    }
    Ok(copy)
}

/// The same switches once more.
pub fn copied_switches(alloc: Global, switches: &Switches) -> Result<Switches, AllocError>
    ensures { IfOk result (λ copy. copy ≡ switches.now) }
{
    let mut copy = Switches::new(alloc);
    'switches: for switch in switches.as_slice() {
        copy.push(*switch)?;
    }
    Ok(copy)
}
