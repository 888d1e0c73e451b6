//! Arrays that change their length.

ghost use Rattle.std.specs.Prelude.{◌≡◌, [], ◌∷◌, pos, map, length};
ghost use Rattle.b67_word.specs.declared.faults.Fault.TheVariants.{InvalidIndex, InvalidOperand, MemoryProtect};
ghost use Rattle.b67_word.specs.declared.faults.Ending.TheVariants.{Ended};
ghost use Rattle.b67_model.specs.Run.{after, lines};
ghost use Rattle.b67_model.specs.Sectors.{sectors};
ghost use Rattle.b67_law_examples.specs.Sessions.{job_alone, line_of_ending, faults, most_need, most_sectors, row, line_of_value, with_row, job_with_stack};
ghost use Rattle.b67_law_examples.specs.Programs.{deallocated, deallocated_long, deallocated_row, doubled, indexed_as_array, lengthened, printed_longer, resized_from_to, resized_row, resized_to, shortened_array, shortened_and_back};

/// A copy whose index is past the new length is INVALID INDEX when it is used.
pub fn index_past_the_new_length()
    ensures { lines 30 (job_alone shortened_array) ≡ faults 1 InvalidIndex ∷ [] }
{}

/// A longer array keeps its numbers, and the new ones are 0.
pub fn longer_array_keeps_its_numbers()
    ensures { lines 40 (job_alone lengthened) ≡ line_of_value 1 (pos 7) ∷ line_of_ending 1 Ended ∷ [] }
{}

/// The numbers of a deallocated array are 0.
pub fn deallocated_array_is_zero()
    ensures { lines 30 (job_alone deallocated) ≡ line_of_value 1 (pos 0) ∷ line_of_ending 1 Ended ∷ [] }
{}

/// A longer array may take more sectors: with three the job ends.
pub fn three_sectors_are_enough()
    ensures printed { lines 20 (job_alone doubled) ≡ line_of_ending 1 Ended ∷ [] }
    ensures most { most_sectors 20 (job_alone doubled) ≡ 3 }
    ensures code { map (λ m. map (λ s. length s.code) m.constants.segments) (job_alone doubled).jobs ≡ (3 ∷ []) ∷ [] }
{}

/// With two sectors the RESIZE, operator ten, is the first step whose state would take more.
pub fn two_sectors_are_too_few()
    ensures before { most_sectors 9 (job_alone doubled) ≡ 2 }
    ensures then { sectors (after 10 (job_alone doubled)).jobs ≡ 3 }
{}

/// RESIZE needs the array as it was: not as it becomes.
pub fn resize_needs_the_old_length()
    ensures shorter { most_need 20 (job_with_stack 64 (resized_from_to 3000 1)) ≡ 3234 }
    ensures longer { most_need 20 (job_with_stack 64 (resized_from_to 10 3000)) ≡ 244 }
{}

/// DEALLOCATE needs no array.
pub fn deallocate_needs_no_array()
    ensures { most_need 20 (job_with_stack 64 deallocated_long) ≡ 232 }
{}

/// A data row keeps its numbers and its length; the length is tested first.
pub fn data_rows_keep_their_length()
    ensures deallocated { lines 20 (with_row deallocated_row) ≡ faults 1 MemoryProtect ∷ [] }
    ensures resized { lines 20 (with_row (resized_row 3)) ≡ faults 1 MemoryProtect ∷ [] }
    ensures length_first { lines 20 (with_row (resized_row 0)) ≡ faults 1 InvalidIndex ∷ [] }
{}

/// A row prints with the length that its array has now, even by a copy from before.
pub fn row_prints_with_the_new_length()
    ensures { lines 30 (job_alone printed_longer) ≡ row 1 (pos 0 ∷ pos 0 ∷ pos 0 ∷ pos 0 ∷ []) ∷ line_of_ending 1 Ended ∷ [] }
{}

/// An array may have 1 to 65,535 numbers.
pub fn lengths_of_an_array()
    ensures none { lines 20 (job_alone (resized_to 0)) ≡ faults 1 InvalidIndex ∷ [] }
    ensures one { lines 20 (job_alone (resized_to 1)) ≡ line_of_ending 1 Ended ∷ [] }
    ensures most { lines 20 (job_alone (resized_to 65535)) ≡ line_of_ending 1 Ended ∷ [] }
    ensures too_many { lines 20 (job_alone (resized_to 65536)) ≡ faults 1 InvalidIndex ∷ [] }
{}

/// An index past the length is found before what else is wrong with the word.
pub fn index_is_tested_first()
    ensures past { lines 30 (job_alone (indexed_as_array 9)) ≡ faults 1 InvalidIndex ∷ [] }
    ensures inside { lines 30 (job_alone (indexed_as_array 10)) ≡ faults 1 InvalidOperand ∷ [] }
{}

/// What a shorter array has lost doesn't come back.
pub fn lost_numbers_are_zero()
    ensures { lines 40 (job_alone shortened_and_back) ≡ line_of_value 1 (pos 0) ∷ line_of_ending 1 Ended ∷ [] }
{}
