//! What the walk down a stack tells.

ghost use Rattle.b67_image_shape.specs.NearStacks.{NearStacksSuffice, StacksAreNear};

/// Stacks stand as they should if they do with each array held as its original says, and their cells are in order.
pub fn near_stacks_suffice()
    ensures { NearStacksSuffice }
{}

/// Stacks that stand as they should do so with each array held as its original says.
pub fn stacks_are_near()
    ensures { StacksAreNear }
{}
