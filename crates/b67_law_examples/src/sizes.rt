//! The core and the sectors that runs need.

ghost use Rattle.std.specs.Prelude.{◌≡◌, [], ◌∷◌, pos, Some};
ghost use Rattle.b67_word.specs.declared.faults.Fault.TheVariants.{Exponent, InvalidOperand};
ghost use Rattle.b67_word.specs.declared.faults.Ending.TheVariants.{Ended, Limit};
ghost use Rattle.b67_model.specs.Run.{after, lines};
ghost use Rattle.b67_model.specs.Need.{need_at_opening, need_next};
ghost use Rattle.b67_law_examples.specs.Sessions.{line_of_ending, faults, most_need, most_sectors, one_job, refused_row_program, row_with_bits_program, line_of_value, limited_job, job_with_stack};
ghost use Rattle.b67_law_examples.specs.Programs.{critical_block, eight_arrays, leave, ten_words, three_segments, two};
ghost use Rattle.b67_law_examples.specs.TaskPrograms.{awaited};

/// One array under ten words of code with stacks of 256 words.
pub fn ten_words_need_533()
    ensures printed { lines 30 (job_with_stack 256 ten_words) ≡ line_of_value 1 (pos 0) ∷ line_of_ending 1 Ended ∷ [] }
    ensures most { most_need 30 (job_with_stack 256 ten_words) ≡ 533 }
{}

/// Need is greatest after the AWAIT, and the sectors are those of two segments and eight arrays.
pub fn eight_needs_910()
    ensures most { most_need 200 (job_with_stack 256 eight_arrays) ≡ 910 }
    ensures there { need_next 0x100000 (after 157 (job_with_stack 256 eight_arrays)) ≡ Some 910 }
    ensures sectors { most_sectors 200 (job_with_stack 256 eight_arrays) ≡ 58 }
{}

/// An array of a left activation record takes no sectors.
pub fn leave_needs_631()
    ensures most { most_need 200 (job_with_stack 256 leave) ≡ 631 }
    ensures sectors { most_sectors 200 (job_with_stack 256 leave) ≡ 16 }
{}

/// One array at a time counts, though two live.
pub fn two_needs_630()
    ensures most { most_need 40 (job_with_stack 256 two) ≡ 630 }
    ensures sectors { most_sectors 40 (job_with_stack 256 two) ≡ 15 }
{}

/// Only the running segment counts.
pub fn three_segments_need_242()
    ensures most { most_need 200 (job_with_stack 64 three_segments) ≡ 242 }
    ensures opening { need_at_opening 64 (job_with_stack 64 three_segments).jobs ≡ 229 }
{}

/// Where the running segment alone doesn't fit, Need is the sum without the array.
pub fn smaller_sum_comes_first()
    ensures with_array { need_next 533 (after 8 (job_with_stack 256 ten_words)) ≡ Some 533 }
    ensures too_small { need_next 430 (after 8 (job_with_stack 256 ten_words)) ≡ Some 431 }
{}

/// An ENTR without a mark over the words of a PRINTROW touches no array.
pub fn refused_row_touches_nothing()
    ensures printed { lines 10 (one_job refused_row_program 256 1000 [] []) ≡ faults 1 InvalidOperand ∷ [] }
    ensures most { most_need 10 (one_job refused_row_program 256 1000 [] []) ≡ 424 }
{}

/// The array of a PRINTROW counts also if an element isn't whole.
pub fn faulting_row_is_touched()
    ensures printed { lines 10 (one_job row_with_bits_program 256 1000 [] []) ≡ faults 1 Exponent ∷ [] }
    ensures most { most_need 10 (one_job row_with_bits_program 256 1000 [] []) ≡ 427 }
{}

/// A task that starts in the operator at which LIMIT ends it counts in the peak.
pub fn peak_counts_a_child_that_limit_ends()
    ensures printed { lines 10 (limited_job 512 5 critical_block) ≡ line_of_ending 2 Limit ∷ line_of_ending 1 Limit ∷ [] }
    ensures peak { (after 10 (limited_job 512 5 critical_block)).peak ≡ 2 }
{}

/// The operator that starts a task needs the new stack, before it is made.
pub fn a_new_task_needs_its_stack()
    ensures before { most_need 4 (job_with_stack 256 awaited) ≡ 427 }
    ensures there { need_next 676 (after 4 (job_with_stack 256 awaited)) ≡ Some 683 }
{}
