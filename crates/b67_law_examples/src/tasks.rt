//! What jobs with several tasks or arrays print, and several jobs.

ghost use Rattle.std.specs.Prelude.{◌≡◌, [], ◌∷◌, pos};
ghost use Rattle.b67_word.specs.declared.faults.Fault.TheVariants.{CriticalBlock, Exponent, InvalidOperator};
ghost use Rattle.b67_word.specs.declared.faults.Ending.TheVariants.{Deadlock, Ended, Faulted, Limit, Parent};
ghost use Rattle.b67_model.specs.Steps.{Ends};
ghost use Rattle.b67_model.specs.Run.{after, lines, live_tasks};
ghost use Rattle.b67_law_examples.specs.Sessions.{job_alone, line_of_ending, faults, one_job, switch_to_task, session_of_two, line_of_value, job_with_stack, without_rows};
ghost use Rattle.b67_law_examples.specs.Programs.{critical_block, critical_program, eight_arrays, event, fifteen, leave, never_started, popped_cell, three_segments, two, two_tasks, wait_at_zero};
ghost use Rattle.b67_law_examples.specs.TaskPrograms.{family, faulting_parent, in_turns, left_by_value, stuck_beside_a_loop, watched};

/// Without a switch the parent stores first, and both additions count.
pub fn two_tasks_share_a_cell()
    ensures { lines 60 (job_alone two_tasks) ≡ line_of_ending 2 Ended ∷ line_of_value 1 (pos 2) ∷ line_of_ending 1 Ended ∷ [] }
{}

/// A switch between the parent's reading and its store makes the child's addition vanish.
pub fn switch_loses_an_addition()
    ensures { lines 60 (one_job (without_rows two_tasks) 512 1000000 [] (switch_to_task 7 2 ∷ [])) ≡ line_of_ending 2 Ended ∷ line_of_value 1 (pos 1) ∷ line_of_ending 1 Ended ∷ [] }
{}

/// The outer block may not end under a task that depends on it.
pub fn critical_block_may_not_end()
    ensures { lines 30 (job_alone critical_block) ≡ line_of_ending 2 Parent ∷ faults 1 CriticalBlock ∷ [] }
{}

/// A mark on which a task depends may not be cut, and nothing is printed.
pub fn critical_mark_may_not_be_cut()
    ensures { lines 30 (job_alone critical_program) ≡ line_of_ending 2 Parent ∷ faults 1 CriticalBlock ∷ [] }
{}

/// Eight arrays and a child: 174 operators.
pub fn eight_is_printed()
    ensures printed { lines 200 (job_with_stack 256 eight_arrays) ≡ line_of_ending 2 Ended ∷ line_of_value 1 (pos 916) ∷ line_of_ending 1 Ended ∷ [] }
    ensures made { (after 200 (job_with_stack 256 eight_arrays)).made ≡ 174 }
    ensures halted { live_tasks (after 100 (job_with_stack 256 eight_arrays)).jobs ≡ 2 }
{}

/// An array of a left activation record is gone.
pub fn leave_is_printed()
    ensures { lines 200 (job_with_stack 256 leave) ≡ line_of_value 1 (pos 3) ∷ line_of_ending 1 Ended ∷ [] }
{}

/// An element of each of two arrays: 27 operators.
pub fn two_is_printed()
    ensures printed { lines 40 (job_with_stack 256 two) ≡ line_of_value 1 (pos 23) ∷ line_of_ending 1 Ended ∷ [] }
    ensures made { (after 40 (job_with_stack 256 two)).made ≡ 27 }
{}

/// Two procedures of sixty operators that do nothing; after two operators the task lives.
pub fn three_segments_run()
    ensures printed { lines 200 (job_with_stack 64 three_segments) ≡ line_of_ending 1 Ended ∷ [] }
    ensures halted { live_tasks (after 2 (job_with_stack 64 three_segments)).jobs ≡ 1 }
{}

/// A job without a ready task ends with DEADLOCK.
pub fn waiting_alone_is_deadlock()
    ensures { lines 20 (job_alone wait_at_zero) ≡ line_of_ending 1 Deadlock ∷ [] }
{}

/// STATUS of a task that was never started is 0.
pub fn status_of_no_task_is_zero()
    ensures { lines 20 (job_alone never_started) ≡ line_of_value 1 (pos 0) ∷ line_of_ending 1 Ended ∷ [] }
{}

/// A CAUSE makes the waiting task ready, and the cell is then 1.
pub fn cause_wakes()
    ensures { lines 60 (job_alone event) ≡ line_of_ending 2 Ended ∷ line_of_value 1 (pos 1) ∷ line_of_ending 1 Ended ∷ [] }
{}

/// A cell of another activation record isn't the waited one, though it takes its place in core.
pub fn popped_cell_is_not_caused()
    ensures { lines 100 (one_job (without_rows popped_cell) 512 1000000 [] (switch_to_task 9 2 ∷ [])) ≡ line_of_ending 2 Deadlock ∷ line_of_ending 1 Deadlock ∷ [] }
{}

/// PROCESS answers 0 where fifteen tasks live, and the children end in order.
pub fn fifteen_tasks_live()
    ensures { lines 200 (job_with_stack 64 fifteen) ≡ line_of_value 1 (pos 0) ∷ line_of_ending 2 Parent ∷ line_of_ending 3 Parent ∷ line_of_ending 4 Parent ∷ line_of_ending 5 Parent ∷ line_of_ending 6 Parent ∷ line_of_ending 7 Parent ∷ line_of_ending 8 Parent ∷ line_of_ending 9 Parent ∷ line_of_ending 10 Parent ∷ line_of_ending 11 Parent ∷ line_of_ending 12 Parent ∷ line_of_ending 13 Parent ∷ line_of_ending 14 Parent ∷ line_of_ending 15 Parent ∷ faults 1 CriticalBlock ∷ [] }
{}

/// Two jobs: the second runs when the first has ended.
pub fn jobs_run_in_order()
    ensures { lines 40 (session_of_two 1000) ≡ line_of_value 1 (pos 5) ∷ line_of_ending 1 Ended ∷ (2, 1, Ends (Faulted Exponent)) ∷ [] }
{}

/// With turns of one operator the shorter job ends first.
pub fn jobs_take_turns()
    ensures { lines 40 (session_of_two 1) ≡ (2, 1, Ends (Faulted Exponent)) ∷ line_of_value 1 (pos 5) ∷ line_of_ending 1 Ended ∷ [] }
{}

/// LIMIT ends the tasks of a job from the deepest up, and those of one depth by their numbers.
pub fn limit_ends_the_deepest_first()
    ensures { lines 80 (in_turns 60 family) ≡ line_of_ending 3 Limit ∷ line_of_ending 5 Limit ∷ line_of_ending 2 Limit ∷ line_of_ending 4 Limit ∷ line_of_ending 1 Limit ∷ [] }
{}

/// STATUS is 2 of a task that waits and 3 of one that has ended.
pub fn status_tells_waiting_and_ended()
    ensures { lines 80 (in_turns 1000 watched) ≡ line_of_value 1 (pos 2) ∷ line_of_ending 2 Ended ∷ line_of_value 1 (pos 3) ∷ line_of_ending 1 Ended ∷ [] }
{}

/// A deadlocked job ends, its child first, while another job goes on to its limit.
pub fn deadlock_is_of_a_job()
    ensures { lines 100 stuck_beside_a_loop ≡ line_of_ending 2 Deadlock ∷ line_of_ending 1 Deadlock ∷ (2, 1, Ends Limit) ∷ [] }
{}

/// A task that faults takes its child with it, whose line comes first; who awaited it goes on.
pub fn fault_ends_the_children_first()
    ensures { lines 80 (in_turns 1000 faulting_parent) ≡ line_of_ending 3 Parent ∷ faults 2 InvalidOperator ∷ line_of_value 1 (pos 3) ∷ line_of_ending 1 Ended ∷ [] }
{}

/// A RETN with a value may not leave an activation record on which a task depends.
pub fn critical_value_may_not_return()
    ensures { lines 40 (job_alone left_by_value) ≡ line_of_ending 2 Parent ∷ faults 1 CriticalBlock ∷ [] }
{}
