//! Laws of chains of references, and of the identities that steps make.

ghost use Rattle.b67_law.specs.Grown.{StepsGrow};
ghost use Rattle.b67_model.specs.Chase.{ChaseIsRelation};

/// The function that follows references gives exactly the ends of whole chains.
pub fn chase_follows_chains()
    ensures { ChaseIsRelation }
{}

/// The next identities of frames and arrays, and the next number of a task, never get lower by a step with its endings.
pub fn identities_grow_by_steps()
    ensures { StepsGrow }
{}
