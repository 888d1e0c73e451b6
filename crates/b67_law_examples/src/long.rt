//! Worked runs that take seconds to compute.

ghost use Rattle.std.specs.Prelude.{◌≡◌, [], ◌∷◌, pos, negsuc};
ghost use Rattle.b67_word.specs.declared.faults.Fault.TheVariants.{Loop};
ghost use Rattle.b67_word.specs.declared.faults.Ending.TheVariants.{Ended};
ghost use Rattle.b67_model.specs.Run.{lines};
ghost use Rattle.b67_law_examples.specs.Sessions.{line_of_ending, faults, line_of_value, job_with_stack};
ghost use Rattle.b67_law_examples.specs.LongPrograms.{chain, manboy};

/// Knuth's man or boy, with k = 8, prints -10.
pub fn manboy_is_printed()
    ensures { lines 100000 (job_with_stack 16383 manboy) ≡ line_of_value 1 (negsuc 9) ∷ line_of_ending 1 Ended ∷ [] }
{}

/// A chain of 1,024 links leads to its cell.
pub fn chain_of_1024_links_is_followed()
    ensures { lines 2000 (job_with_stack 2048 (chain 1023)) ≡ line_of_value 1 (pos 0) ∷ line_of_ending 1 Ended ∷ [] }
{}

/// Where link 1,025 would be followed the fault is LOOP.
pub fn link_1025_loops()
    ensures { lines 2000 (job_with_stack 2048 (chain 1024)) ≡ faults 1 Loop ∷ [] }
{}
