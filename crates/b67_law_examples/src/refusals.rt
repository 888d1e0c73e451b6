//! Which programs the loader refuses, and where.

ghost use Rattle.std.specs.Prelude.{◌≡◌, [], ◌∷◌, map};
ghost use Rattle.b67_word.specs.Couples.{couple};
ghost use Rattle.b67_model.specs.Loader.{refusals, first_of};
ghost use Rattle.b67_law_examples.specs.Sessions.{branching, first_at, refused_at, rule_of, without_rows};
ghost use Rattle.b67_law_examples.specs.Programs.{eight_arrays, enters_at_0_1, counted_entries, exercise_program, into_a_literal, jensen, leave, names_itself, names_none, one_word_segment, outer_of_level_3, popped_cell, sum, thirty_levels, two, two_tasks, with_entries};

/// At level 2 the couple of level 2 and displacement 5 is 1005 in hexadecimal, and that of level 0 and 9 is 9.
pub fn couple_in_reversed_bits()
    ensures outer { couple 0x1005 2 ≡ record { level = 2; disp = 5 } }
    ensures mcp { couple 9 2 ≡ record { level = 0; disp = 9 } }
{}

/// A branch to a place inside an LT48's literal is refused by rule 3.
pub fn branch_into_a_literal_is_refused()
    ensures { refusals (without_rows into_a_literal) ≡ refused_at 2 0 3 }
{}

/// Of the six places of its own word a branch is admitted exactly to the starts.
pub fn branches_go_to_starts()
    ensures to_0_0 { refusals (branching 0 0) ≡ [] }
    ensures to_0_1 { refusals (branching 0 1) ≡ [] }
    ensures to_0_2 { refusals (branching 0 2) ≡ refused_at 0 5 3 }
    ensures to_0_3 { refusals (branching 0 3) ≡ [] }
    ensures to_0_4 { refusals (branching 0 4) ≡ refused_at 0 5 3 }
    ensures to_0_5 { refusals (branching 0 5) ≡ [] }
{}

/// Of the six places of the word after its own a branch is admitted exactly to the starts.
pub fn branches_go_to_starts_of_the_next_word()
    ensures to_1_0 { refusals (branching 1 0) ≡ refused_at 0 5 3 }
    ensures to_1_1 { refusals (branching 1 1) ≡ refused_at 0 5 3 }
    ensures to_1_2 { refusals (branching 1 2) ≡ [] }
    ensures to_1_3 { refusals (branching 1 3) ≡ [] }
    ensures to_1_4 { refusals (branching 1 4) ≡ [] }
    ensures to_1_5 { refusals (branching 1 5) ≡ [] }
{}

/// The worked programs are admitted.
pub fn rows_programs_are_admitted()
    ensures sum { refusals (without_rows sum) ≡ [] }
    ensures jensen { refusals (without_rows jensen) ≡ [] }
    ensures two_tasks { refusals (without_rows two_tasks) ≡ [] }
    ensures eight { refusals (without_rows eight_arrays) ≡ [] }
    ensures leave { refusals (without_rows leave) ≡ [] }
    ensures two { refusals (without_rows two) ≡ [] }
    ensures thirty_levels { refusals (without_rows thirty_levels) ≡ [] }
    ensures popped_cell { refusals (without_rows popped_cell) ≡ [] }
    ensures exercise { refusals (without_rows exercise_program) ≡ [] }
{}

/// A program without segments, or whose first segment isn't of level 2, is refused by rule 10.
pub fn first_segment_is_of_level_2()
    ensures none { refusals (without_rows []) ≡ record { segment = 0; place = record { word = 0; syllable = 0 }; rule = 10 } ∷ [] }
    ensures third { refusals (without_rows outer_of_level_3) ≡ refused_at 0 0 10 }
{}

/// An MPCW of a segment that isn't of the next level is refused by rule 8, of no segment by rules 7 and 8.
pub fn proc_of_the_own_level_is_refused()
    ensures level { refusals (without_rows names_itself) ≡ refused_at 0 0 8 }
    ensures none { map rule_of (refusals (without_rows names_none)) ≡ 7 ∷ 8 ∷ [] }
{}

/// An entry that isn't a start is refused by rule 11 at its place, also if that stands before all that is refused of
/// the listing, or past the segment.
pub fn entries_are_starts()
    ensures before_a_break { first_of (refusals (without_rows (one_word_segment (0x2000 ∷ []) 0x4009c0ffffff))) ≡ first_at 0 1 11 }
    ensures past_the_segment { first_of (refusals (without_rows (one_word_segment (5 ∷ []) 0x4009b0b1b0a3))) ≡ first_at 5 0 11 }
    ensures past_a_refusal { first_of (refusals (without_rows (one_word_segment (5 ∷ []) 0x4009b0b1b0b1))) ≡ first_at 0 5 5 }
    ensures first_of_two { first_of (refusals (without_rows (one_word_segment (0x2000 ∷ 5 ∷ []) 0x4009b0b1b0b1))) ≡ first_at 0 1 11 }
    ensures of_segment { refusals (without_rows (one_word_segment (5 ∷ []) 0x4009b0b1b0a3)) ≡ refused_at 5 0 11 }
    ensures at_starts { refusals (without_rows (one_word_segment (0x4000 ∷ 0x6000 ∷ 0x8000 ∷ 0xa000 ∷ []) 0x4009b0b1b0a3)) ≡ [] }
    ensures at_a_break { first_of (refusals (without_rows (one_word_segment (0x4000 ∷ []) 0x4009c0ffffff))) ≡ first_at 0 2 1 }
    ensures most { refusals (without_rows (with_entries (counted_entries 1 255))) ≡ [] }
    ensures after_most { first_of (refusals (without_rows (with_entries (counted_entries 4 255)))) ≡ first_at 43 0 11 }
{}

/// An MPCW makes the PCW of a segment's first place or of one of its entries. Any other place, also a start, is refused
/// by rule 8.
pub fn procedures_begin_at_entries()
    ensures at_the_entry { refusals (without_rows (enters_at_0_1 (0x2000 ∷ []))) ≡ [] }
    ensures among_entries { refusals (without_rows (enters_at_0_1 (0x2000 ∷ 0x4000 ∷ []))) ≡ [] }
    ensures at_another_start { refusals (without_rows (enters_at_0_1 (0x4000 ∷ []))) ≡ refused_at 0 0 8 }
    ensures without_entries { refusals (without_rows (enters_at_0_1 [])) ≡ refused_at 0 0 8 }
{}
