//! Choices that a printed line or a turn shows.

ghost use Rattle.std.specs.Prelude.{◌≡◌, [], ◌∷◌, pos};
ghost use Rattle.b67_word.specs.declared.faults.Fault.TheVariants.{InvalidAddress, InvalidOperand, StackOverflow, StackUnderflow};
ghost use Rattle.b67_word.specs.declared.faults.Ending.TheVariants.{Deadlock, Ended};
ghost use Rattle.b67_model.specs.Run.{lines};
ghost use Rattle.b67_law_examples.specs.Sessions.{job_alone, line_of_ending, faults, jobs_of, switch_to_task, two_loops, line_of_value, job_with_stack};
ghost use Rattle.b67_law_examples.specs.Programs.{array_as_parameter, awaits_itself, awaits_none, causes_seven, element_for_a_value, exit_for_a_load, exit_for_a_value, full_load, fuller_load, own_status, process_of_none, process_with_original, returns_at_bottom, returns_nothing, row_for_a_value};

/// A thunk that leaves by EXIT pushes nothing, and the VALC is done.
pub fn exit_gives_no_value()
    ensures { lines 40 (job_alone exit_for_a_value) ≡ line_of_value 1 (pos 4) ∷ line_of_ending 1 Ended ∷ [] }
{}

/// After a thunk that leaves by EXIT a LOAD is made again on what is left.
pub fn exit_repeats_the_load()
    ensures { lines 40 (job_alone exit_for_a_load) ≡ line_of_value 1 (pos 7) ∷ line_of_ending 1 Ended ∷ [] }
{}

/// For a VALC a returned element is read, and a returned array is no value.
pub fn value_is_evaluated()
    ensures element { lines 60 (job_alone element_for_a_value) ≡ line_of_value 1 (pos 6) ∷ line_of_ending 1 Ended ∷ [] }
    ensures row { lines 40 (job_alone row_for_a_value) ≡ faults 1 InvalidOperand ∷ [] }
{}

/// Entering from a LOAD needs one word more than before; where it fits, the LOAD is made again on the cell below.
pub fn load_of_a_procedure_takes_a_word()
    ensures full { lines 100 (job_with_stack 64 full_load) ≡ faults 1 StackOverflow ∷ [] }
    ensures fits { lines 100 (job_with_stack 64 fuller_load) ≡ faults 1 InvalidOperand ∷ [] }
{}

/// An array declared into the parameters belongs to the entered activation record.
pub fn original_may_be_a_parameter()
    ensures { lines 60 (job_alone array_as_parameter) ≡ line_of_value 1 (pos 6) ∷ line_of_ending 1 Ended ∷ [] }
{}

/// PROCESS refuses an original among its words before it follows its reference.
pub fn original_is_refused_before_the_chain()
    ensures original { lines 20 (job_alone process_with_original) ≡ faults 1 InvalidOperand ∷ [] }
    ensures reference { lines 20 (job_alone process_of_none) ≡ faults 1 InvalidAddress ∷ [] }
{}

/// AWAIT of no task doesn't wait, a task may await itself, and its own status is 1.
pub fn tasks_of_other_numbers()
    ensures none { lines 20 (job_alone awaits_none) ≡ line_of_ending 1 Ended ∷ [] }
    ensures itself { lines 20 (job_alone awaits_itself) ≡ line_of_ending 1 Deadlock ∷ [] }
    ensures status { lines 20 (job_alone own_status) ≡ line_of_value 1 (pos 1) ∷ line_of_ending 1 Ended ∷ [] }
{}

/// CAUSE stores 1 whatever the cell held.
pub fn cause_stores_one()
    ensures { lines 40 (job_alone causes_seven) ≡ line_of_value 1 (pos 1) ∷ line_of_ending 1 Ended ∷ [] }
{}

/// A RETN of the outer block ends the task, and underflows without a word.
pub fn outer_block_may_return()
    ensures word { lines 10 (job_alone returns_at_bottom) ≡ line_of_ending 1 Ended ∷ [] }
    ensures none { lines 10 (job_alone returns_nothing) ≡ faults 1 StackUnderflow ∷ [] }
{}

/// A turn of three; a switch to the running task begins it anew; while a switch is left the turn isn't looked at, and may end at once after it.
pub fn turns_and_switches()
    ensures turns { jobs_of 8 (two_loops []) ≡ 1 ∷ 1 ∷ 1 ∷ 2 ∷ 2 ∷ 2 ∷ 1 ∷ 1 ∷ [] }
    ensures anew { jobs_of 8 (two_loops (switch_to_task 2 1 ∷ [])) ≡ 1 ∷ 1 ∷ 1 ∷ 1 ∷ 1 ∷ 2 ∷ 2 ∷ 2 ∷ [] }
    ensures left { jobs_of 8 (two_loops (switch_to_task 4 2 ∷ [])) ≡ 1 ∷ 1 ∷ 1 ∷ 1 ∷ 2 ∷ 2 ∷ 2 ∷ 1 ∷ [] }
{}
