//! Steps from an image for a page.

ghost use Rattle.std.specs.Prelude.{◌≤◌, take, length};
ghost use Rattle.b67_program.specs.Stepped.{IsSteppedInMemory};

use b67_program::step_in_memory;
use std::alloc::Global;

/// Goes on with the machine of an image for up to `most` operators, over sectors that are the caller's memory and belong to the image.
/// The lines of these operators, and where a task lives after so many the image of the machine then with the line of a halt, stand
/// in the first `printed` places of `lines`, and the caller's sectors are those of that machine.
///
/// Status 3 is that so many operators were made, and a task lives; 0 that all tasks ended; the others are those of `run`, and
/// 255 if there are no sectors, or more than a device has.
#[unsafe(no_mangle)]
pub extern "C" fn b67_web_step(
    alloc: Global,
    image: &[u8],
    most: u64,
    sectors: &mut [[u64; 30]],
    lines: &mut [u8],
    printed: &mut usize,
) -> u8
    ensures stepped { IsSteppedInMemory image.now most sectors.old sectors.new (length lines.old) (take printed.new lines.new) result }
    ensures inside { printed.new ≤ length lines.new }
{
    step_in_memory(alloc, image, most, sectors, lines, printed)
}
