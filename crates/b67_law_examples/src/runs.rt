//! What one job with one task prints.

ghost use Rattle.std.specs.Prelude.{◌≡◌, [], ◌∷◌, pos, negsuc};
ghost use Rattle.b67_word.specs.declared.faults.Fault.TheVariants.{DivideByZero, Exponent, IntegerOverflow, InvalidAddress, InvalidIndex, InvalidOperand, Loop, MarkPending, StackOverflow, StackUnderflow, Uplevel};
ghost use Rattle.b67_word.specs.declared.faults.Ending.TheVariants.{Ended, Limit};
ghost use Rattle.b67_model.specs.Run.{after, lines, start};
ghost use Rattle.b67_law_examples.specs.Sessions.{job_alone, line_of_ending, faults, one_job, row, line_of_value, limited_job, job_with_stack, without_rows};
ghost use Rattle.b67_law_examples.specs.Programs.{division, endless, enters_at_0_1, enters_itself, exercise_program, index_at_length, indexes_itself, jensen, left_when_marked, limits, not_whole, one_cell, own_reference, place_of_mark, printed_row, push_loop, reads_program, reads_itself, reads_under_itself, returns_own_cell, stores_in_itself, stores_under_itself, sum, thirty_levels, with_a_parameter, wrong_level};

/// Two and three make five.
pub fn sum_is_printed()
    ensures { lines 20 (job_alone sum) ≡ line_of_value 1 (pos 5) ∷ line_of_ending 1 Ended ∷ [] }
{}

/// A deck without a job prints nothing.
pub fn no_job_prints_nothing()
    ensures { lines 10 (start [] [] 1000) ≡ [] }
{}

/// The greatest number is printed, minus zero is zero, and a greater sum is INTEGER OVERFLOW.
pub fn limits_of_numbers()
    ensures { lines 30 (job_alone limits) ≡ line_of_value 1 (pos 549755813887) ∷ line_of_value 1 (pos 0) ∷ faults 1 IntegerOverflow ∷ [] }
{}

/// Arithmetic on an operand that isn't whole is EXPONENT.
pub fn arithmetic_wants_whole_numbers()
    ensures { lines 20 (job_alone not_whole) ≡ faults 1 Exponent ∷ [] }
{}

/// The sum of the squares from one to ten, by parameters called by name.
pub fn jensen_is_printed()
    ensures { lines 1000 (job_alone jensen) ≡ line_of_value 1 (pos 385) ∷ line_of_ending 1 Ended ∷ [] }
{}

/// The last element is read; an index that is the length is INVALID INDEX.
pub fn index_at_length_is_invalid()
    ensures { lines 30 (job_alone index_at_length) ≡ line_of_value 1 (pos 0) ∷ faults 1 InvalidIndex ∷ [] }
{}

/// A reference to the caller's cell may be returned, one to an own cell is UPLEVEL.
pub fn own_reference_is_uplevel()
    ensures { lines 50 (job_alone own_reference) ≡ line_of_value 1 (pos 7) ∷ faults 1 Uplevel ∷ [] }
{}

/// A couple that names the place of a mark is INVALID ADDRESS.
pub fn mark_is_no_cell()
    ensures { lines 20 (job_alone place_of_mark) ≡ faults 1 InvalidAddress ∷ [] }
{}

/// A job ends with LIMIT where it has made as many operators as it may.
pub fn loop_ends_by_limit()
    ensures { lines 30 (limited_job 512 5 endless) ≡ line_of_ending 1 Limit ∷ [] }
{}

/// READ gives the job's numbers, then an operand that is no whole number.
pub fn reads_end_with_a_mark()
    ensures { lines 40 (one_job (without_rows reads_program) 512 1000 (pos 7 ∷ negsuc 1 ∷ []) []) ≡ line_of_value 1 (pos 5) ∷ line_of_value 1 (pos 1) ∷ line_of_ending 1 Ended ∷ [] }
{}

/// Four stores and the sum of their elements take forty-five operators.
pub fn exercise_is_printed()
    ensures printed { lines 100 (job_with_stack 1024 exercise_program) ≡ line_of_value 1 (pos 695) ∷ line_of_ending 1 Ended ∷ [] }
    ensures made { (after 100 (job_with_stack 1024 exercise_program)).made ≡ 45 }
{}

/// ADD over one cell is STACK UNDERFLOW.
pub fn one_cell_underflows()
    ensures { lines 10 (job_alone one_cell) ≡ faults 1 StackUnderflow ∷ [] }
{}

/// EXIT over a mark is MARK PENDING.
pub fn exit_over_a_mark()
    ensures { lines 10 (job_alone left_when_marked) ≡ faults 1 MarkPending ∷ [] }
{}

/// Quotient and remainder go toward zero; a divisor of zero is DIVIDE BY ZERO.
pub fn division_goes_toward_zero()
    ensures { lines 60 (job_alone division) ≡ line_of_value 1 (negsuc 2) ∷ line_of_value 1 (negsuc 0) ∷ line_of_value 1 (pos 10) ∷ faults 1 DivideByZero ∷ [] }
{}

/// A procedure's value is printed.
pub fn value_is_returned()
    ensures { lines 30 (job_alone with_a_parameter) ≡ line_of_value 1 (pos 1) ∷ line_of_ending 1 Ended ∷ [] }
{}

/// An ENTR whose reference names its own cell is LOOP.
pub fn entering_itself_loops()
    ensures { lines 10 (job_alone enters_itself) ≡ faults 1 Loop ∷ [] }
{}

/// A returned reference to an own cell is UPLEVEL.
pub fn own_cell_is_uplevel()
    ensures { lines 20 (job_alone returns_own_cell) ≡ faults 1 Uplevel ∷ [] }
{}

/// A Proc that doesn't lie in the level under its own is INVALID OPERAND.
pub fn entering_wants_the_level()
    ensures { lines 20 (job_alone wrong_level) ≡ faults 1 InvalidOperand ∷ [] }
{}

/// A VALC of a name of its own cell is LOOP.
pub fn reading_itself_loops()
    ensures { lines 10 (job_alone reads_itself) ≡ faults 1 Loop ∷ [] }
{}

/// Ten values to a line.
pub fn row_is_printed()
    ensures { lines 40 (job_alone printed_row) ≡ row 1 (pos 0 ∷ pos 0 ∷ pos 0 ∷ pos 0 ∷ pos 0 ∷ pos 0 ∷ pos 0 ∷ pos 0 ∷ pos 0 ∷ pos 0 ∷ pos 5 ∷ pos 0 ∷ []) ∷ line_of_ending 1 Ended ∷ [] }
{}

/// Each level up to 31 enters the next one.
pub fn thirty_levels_are_entered()
    ensures { lines 400 (job_alone thirty_levels) ≡ line_of_value 1 (pos 31) ∷ line_of_ending 1 Ended ∷ [] }
{}

/// A stack of 64 words has room for 61 cells in the outer block.
pub fn sixty_one_cells_fit()
    ensures { lines 200 (limited_job 64 123 push_loop) ≡ faults 1 StackOverflow ∷ [] }
{}

/// The operator before the overflow ends the job where it is the last one.
pub fn limit_before_overflow()
    ensures { lines 200 (limited_job 64 122 push_loop) ≡ line_of_ending 1 Limit ∷ [] }
{}

/// The name of the cell that holds the value is a lawful destination: the chain is followed before the step.
pub fn store_under_the_value()
    ensures { lines 10 (job_alone stores_under_itself) ≡ line_of_ending 1 Ended ∷ [] }
{}

/// A destination that names its own cell is LOOP.
pub fn store_in_itself_loops()
    ensures { lines 10 (job_alone stores_in_itself) ≡ faults 1 Loop ∷ [] }
{}

/// A name of the index's cell is no array.
pub fn index_cell_is_no_array()
    ensures { lines 10 (job_alone reads_under_itself) ≡ faults 1 InvalidOperand ∷ [] }
{}

/// An array that names its own cell is LOOP.
pub fn indexing_itself_loops()
    ensures { lines 10 (job_alone indexes_itself) ≡ faults 1 Loop ∷ [] }
{}

/// A procedure begins at an entry of its segment.
pub fn procedure_begins_at_an_entry()
    ensures { lines 20 (job_alone (enters_at_0_1 (0x2000 ∷ []))) ≡ line_of_value 1 (pos 1) ∷ line_of_ending 1 Ended ∷ [] }
{}
