//! Steps from an image over memory that the caller lends, and the image then.

ghost use Rattle.std.specs.Prelude.{◌≡◌, ◌≤◌, ◌<◌, ◌^◌, take, length, IfOk, OnErr};
ghost use Rattle.b67_program.specs.Stepped.{IsStepInMemory, IsSteppedInMemory};

use crate::in_memory::{calm_paper, print_into, tape_of};
use crate::lent::LentSectors;
use b67_job::step_from_image;
use b67_model::MOST_SECTORS;
use std::alloc::{AllocError, Global};

/// Calls `step_from_image` over a copy of the image and of the sectors, and gives back the sectors and what was printed.
fn stepped(
    alloc: Global,
    image: &[u8],
    most: u64,
    sectors: &mut [[u64; 30]],
    lines: &mut [u8],
    printed: &mut usize,
) -> Result<u8, AllocError>
    requires low { 1 ≤ length sectors.old }
    requires high { length sectors.old < 2 ^ 20 }
    ensures stepped { IfOk result (λ status. IsStepInMemory image.now most sectors.old sectors.new (length lines.old) (take printed.new lines.new) status) }
    ensures inside { IfOk result (λ status. printed.new ≤ length lines.new) }
    ensures kept { OnErr result ((sectors.new ≡ sectors.old) × (printed.new ≡ printed.old)) }
{
    let mut source = tape_of(alloc, image)?;
    let mut paper = calm_paper(alloc, lines.len())?;
    let mut device = LentSectors::of(alloc, sectors)?;
    let status = step_from_image(alloc, most, &mut source, &mut paper, &mut device);
    if device.count() != sectors.len() {
        unreachable!();
    }
    device.give_back(sectors);
    *printed = print_into(lines, paper.bytes());
    Ok(status)
}

/// Goes on with the machine of an image for up to `most` operators, over the sectors that belong to it, and prints into the front of
/// `lines` what `step_from_image` does: the lines of the steps, and where a task lives after so many, the image of the machine
/// then, to which the sectors belong that are given back.
///
/// The status is that of `step_from_image`; 255 if there are no sectors, or more than 1,048,575.
pub fn step_in_memory(
    alloc: Global,
    image: &[u8],
    most: u64,
    sectors: &mut [[u64; 30]],
    lines: &mut [u8],
    printed: &mut usize,
) -> u8
    ensures steps { IsSteppedInMemory image.now most sectors.old sectors.new (length lines.old) (take printed.new lines.new) result }
    ensures inside { printed.new ≤ length lines.new }
{
    *printed = 0;
    if sectors.is_empty() || sectors.len() > MOST_SECTORS as usize {
        return 255;
    }
    match stepped(alloc, image, most, sectors, lines, printed) {
        Ok(status) => status,
        Err(_) => 9,
    }
}
