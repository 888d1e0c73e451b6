//! What assembly cards denote, and which are refused.

ghost use Rattle.std.specs.Prelude.{◌≡◌, [], ◌∷◌, Ok, codes};
ghost use Rattle.b67_model_text.specs.Cards.{cards};
ghost use Rattle.b67_model_text.specs.Asm.{version_of};
ghost use Rattle.b67_law_examples.specs.Cards.{assembly, refused_with};
ghost use Rattle.b67_law_examples.specs.LongPrograms.{manboy};
ghost use Rattle.b67_law_examples.specs.Programs.{eight_arrays, jensen, leave, sum};
ghost use Rattle.b67_law_examples.specs.Sessions.{without_rows};
ghost use Rattle.b67_law_examples.specs.CardTexts.{eight_cards, jensen_cards, leave_cards, manboy_cards, small_segments, sum_cards, text_of_cards};

/// The cards of a sum denote its two words.
pub fn sum_is_assembled()
    ensures words { assembly (text_of_cards sum_cards) ≡ Ok (record { segments = record { level = 2; entries = []; code = 0xae4009b202b2 ∷ 0x0380aba3ffff ∷ [] } ∷ []; rows = [] }) }
    ensures program { assembly (text_of_cards sum_cards) ≡ Ok (without_rows sum) }
{}

/// The cards of Jensen's device denote its program.
pub fn jensen_is_assembled()
    ensures { assembly (text_of_cards jensen_cards) ≡ Ok (without_rows jensen) }
{}

/// The cards of the man or boy denote its program.
pub fn manboy_is_assembled()
    ensures { assembly (text_of_cards manboy_cards) ≡ Ok (without_rows manboy) }
{}

/// The cards with eight arrays denote their program.
pub fn eight_is_assembled()
    ensures { assembly (text_of_cards eight_cards) ≡ Ok (without_rows eight_arrays) }
{}

/// The cards with a procedure's own array denote their program.
pub fn leave_is_assembled()
    ensures { assembly (text_of_cards leave_cards) ≡ Ok (without_rows leave) }
{}

/// The rest of a word before a literal is filled, and the last word too.
pub fn literals_fill_their_words()
    ensures fills { assembly (codes "SEGMENT A 2\nZERO\nLT48 -5\nONE\nMPCW A\nL: LT16 65535\nINSR 40,8\nBRUN L\nNOOP\nNVLD\n") ≡ Ok (record { segments = record { level = 2; entries = []; code = 0xb0beffffffff ∷ 0x400000000005 ∷ 0xb1bfffffffff ∷ 0x000000008002 ∷ 0xb3ffff9c2808 ∷ 0xa20004feffff ∷ [] } ∷ []; rows = [] }) }
    ensures short_fills { assembly (codes "SEGMENT A 2\nLT48 1\nLT8 1\nLT8 1\nONE\nLT48 2\nBSET 5\nBRST 6\nPUSH\n") ≡ Ok (record { segments = record { level = 2; entries = []; code = 0xbeffffffffff ∷ 0x000000000001 ∷ 0xb201b201b1be ∷ 0x000000000002 ∷ 0x96059e06b4ff ∷ [] } ∷ []; rows = [] }) }
{}

/// Rows follow the segments; couples are split at the segment's level, 31 for levels above.
pub fn rows_and_couples_are_assembled()
    ensures row_named { assembly (codes "SEGMENT A 2\nVALC 1,R\nNAMC 1,S\nEXIT\nROW R\nNUM 1 -2 #800000000000\nNUM 549755813887\nROW S\nNUM #aBcDeF012345\n") ≡ Ok (record { segments = record { level = 2; entries = []; code = 0x20036004a3ff ∷ [] } ∷ []; rows = (0x000000000001 ∷ 0x400000000002 ∷ 0x800000000000 ∷ 0x007fffffffff ∷ []) ∷ (0xabcdef012345 ∷ []) ∷ [] }) }
    ensures level_31 { assembly (codes "SEGMENT A 2\nMPCW B\nEXIT\nSEGMENT B 31\nVALC 31,511\nNAMC 16,5\nNAMC 1,0\nEXIT\n") ≡ Ok (record { segments = record { level = 2; entries = []; code = 0xbfffffffffff ∷ 0x00000007c003 ∷ 0xa3ffffffffff ∷ [] } ∷ record { level = 31; entries = []; code = 0x3fff42056000 ∷ 0xa3ffffffffff ∷ [] } ∷ []; rows = [] }) }
    ensures level_255 { assembly (codes "SEGMENT A 255\nVALC 31,511\nEXIT\n") ≡ Ok (record { segments = record { level = 255; entries = []; code = 0x3fffa3ffffff ∷ [] } ∷ []; rows = [] }) }
    ensures label_other_segment { assembly (codes "SEGMENT A 2\nL: ADD\nSEGMENT B 3\nL: ADD\nBRUN L\nBRTR L\nBRFL L\n") ≡ Ok (record { segments = record { level = 2; entries = []; code = 0x80ffffffffff ∷ [] } ∷ record { level = 3; entries = []; code = 0x80a20000a100 ∷ 0x00a00000ffff ∷ [] } ∷ []; rows = [] }) }
    ensures label_mnemonic { assembly (codes "SEGMENT A 2\nADD: ADD ; x\nBRUN ADD\n") ≡ Ok (record { segments = record { level = 2; entries = []; code = 0x80a20000ffff ∷ [] } ∷ []; rows = [] }) }
    ensures comments { assembly (codes "; only\n  SEGMENT   A   2 ; x\n\nMKST;\n  L:   EXIT;;\n ;\n") ≡ Ok (record { segments = record { level = 2; entries = []; code = 0xaea3ffffffff ∷ [] } ∷ []; rows = [] }) }
{}

/// Reason 1: an unknown mnemonic, a malformed label, or no card of the table.
pub fn unknown_cards_are_refused()
    ensures sum_misspelt { assembly (codes "SEGMENT MAIN 2\nMKST\nNAMC 0,9\nLT8 2\nLT8 3\nADDD\nENTR\nEXIT\n") ≡ refused_with 6 1 }
    ensures gets_bad { assembly (codes "SEGMENT A 2\nADDD\n") ≡ refused_with 2 1 }
    ensures label_alone { assembly (codes "SEGMENT A 2\nL:\n") ≡ refused_with 2 1 }
    ensures label_segment { assembly (codes "L: SEGMENT A 2\n") ≡ refused_with 1 1 }
    ensures label_apart { assembly (codes "SEGMENT A 2\nL : ADD\n") ≡ refused_with 2 1 }
    ensures label_close { assembly (codes "SEGMENT A 2\nL:ADD\n") ≡ refused_with 2 1 }
{}

/// Reason 2: a malformed number.
pub fn malformed_numbers_are_refused()
    ensures minus_sign { assembly (codes "SEGMENT A 2\nLT8 -1\n") ≡ refused_with 2 2 }
    ensures plus_sign { assembly (codes "SEGMENT A 2\nLT8 +5\n") ≡ refused_with 2 2 }
    ensures zeros_in_front { assembly (codes "SEGMENT A 2\nLT8 007\n") ≡ refused_with 2 2 }
    ensures minus_zero { assembly (codes "SEGMENT A 2\nLT48 -0\n") ≡ refused_with 2 2 }
{}

/// Reason 2: a malformed name, or a row's name at a level above 1.
pub fn names_are_refused()
    ensures bad_name { assembly (codes "SEGMENT a 2\n") ≡ refused_with 1 2 }
    ensures two_names { assembly (codes "ROW TWO X\n") ≡ refused_with 1 2 }
    ensures row_at_2 { assembly (codes "SEGMENT A 2\nVALC 2,R\nROW R\nNUM 1\n") ≡ refused_with 2 2 }
{}

/// Reason 2: an operand that is missing, one too many, or malformed otherwise.
pub fn operands_are_refused()
    ensures no_operand { assembly (codes "SEGMENT A 2\nLT8\n") ≡ refused_with 2 2 }
    ensures two_operands { assembly (codes "SEGMENT A 2\nLT8 5 5\n") ≡ refused_with 2 2 }
    ensures none_wanted { assembly (codes "SEGMENT A 2\nADD 5\n") ≡ refused_with 2 2 }
    ensures spaced_pair { assembly (codes "SEGMENT A 2\nVALC 2, 2\n") ≡ refused_with 2 2 }
    ensures three_in_a_pair { assembly (codes "SEGMENT A 2\nVALC 2,2,2\n") ≡ refused_with 2 2 }
    ensures bad_literal { assembly (codes "SEGMENT A 2\nLT48 #12345678901\n") ≡ refused_with 2 2 }
{}

/// Reason 3: a number out of its range.
pub fn ranges_are_refused()
    ensures long_number { assembly (codes "SEGMENT A 2\nLT16 99999999999999999999\n") ≡ refused_with 2 3 }
    ensures long_level { assembly (codes "SEGMENT A 99999\n") ≡ refused_with 1 3 }
    ensures bit_48 { assembly (codes "SEGMENT A 2\nBSET 47\nBRST 48\n") ≡ refused_with 3 3 }
    ensures width_256 { assembly (codes "SEGMENT A 2\nISOL 255,0\nINSR 256,1\n") ≡ refused_with 3 3 }
    ensures far_literal { assembly (codes "SEGMENT A 2\nLT48 -549755813888\n") ≡ refused_with 2 3 }
    ensures label_of_far { assembly (codes "SEGMENT A 2\nBRUN L\nL: LT8 300\n") ≡ refused_with 3 3 }
{}

/// Reason 4: a name or label that is defined already.
pub fn second_definitions_are_refused()
    ensures name_twice { assembly (codes "SEGMENT A 2\nEXIT\nROW A\nNUM 5\n") ≡ refused_with 3 4 }
    ensures label_twice { assembly (codes "SEGMENT A 2\nL: ADD\nL: ADD\n") ≡ refused_with 3 4 }
{}

/// Reason 5: a name or label that no card defines, or a segment above level 31.
pub fn undefined_names_are_refused()
    ensures label_of_bad { assembly (codes "SEGMENT A 2\nBRUN L\nL: ADDD\n") ≡ refused_with 2 5 }
    ensures row_for_a_segment { assembly (codes "SEGMENT A 2\nMPCW R\nROW R\nNUM 5\n") ≡ refused_with 2 5 }
    ensures segment_for_a_row { assembly (codes "SEGMENT A 2\nVALC 1,A\n") ≡ refused_with 2 5 }
    ensures no_label { assembly (codes "SEGMENT A 2\nBRUN L\nSEGMENT B 3\nL: EXIT\n") ≡ refused_with 2 5 }
    ensures unknown_segment { assembly (codes "MPCW A\n") ≡ refused_with 1 5 }
    ensures level_32 { assembly (codes "SEGMENT A 2\nMPCW B\nEXIT\nSEGMENT B 32\nEXIT\n") ≡ refused_with 2 5 }
    ensures first_definition { assembly (codes "SEGMENT M 2\nMPCW A\nROW A\nNUM 1\nSEGMENT A 3\nEXIT\n") ≡ refused_with 2 5 }
{}

/// Reason 6: an operator outside a segment, or numbers outside a row.
pub fn cards_outside_are_refused()
    ensures branch_outside { assembly (codes "BRUN L\n") ≡ refused_with 1 6 }
    ensures couple_outside { assembly (codes "VALC 99,99\n") ≡ refused_with 1 6 }
    ensures num_first { assembly (codes "NUM 5\n") ≡ refused_with 1 6 }
    ensures num_in_segment { assembly (codes "SEGMENT A 2\nADD\nNUM 5\n") ≡ refused_with 3 6 }
    ensures op_in_row { assembly (codes "ROW R\nNUM 1\nADD\n") ≡ refused_with 3 6 }
{}

/// Reason 7: a segment or row that gets no card.
pub fn empty_segments_are_refused()
    ensures gets_num { assembly (codes "SEGMENT A 2\nNUM 5\n") ≡ refused_with 1 7 }
    ensures row_gets_op { assembly (codes "ROW R\nEXIT\n") ≡ refused_with 1 7 }
    ensures empty_segment { assembly (codes "SEGMENT A 2\nSEGMENT B 2\nEXIT\n") ≡ refused_with 1 7 }
    ensures bad_segment_ends { assembly (codes "SEGMENT A 2\nSEGMENT 5 2\nEXIT\n") ≡ refused_with 1 7 }
{}

/// Reason 8: a couple that doesn't fit the split.
pub fn unfit_couples_are_refused()
    ensures displacement_too_high { assembly (codes "SEGMENT A 3\nVALC 3,4095\nVALC 3,4096\n") ≡ refused_with 3 8 }
    ensures level_too_high { assembly (codes "SEGMENT A 1\nVALC 1,8191\nVALC 2,0\n") ≡ refused_with 3 8 }
    ensures long_couple { assembly (codes "SEGMENT A 2\nVALC 99999999999,0\nEXIT\n") ≡ refused_with 2 8 }
    ensures long_disp { assembly (codes "SEGMENT A 2\nVALC 0,99999999999999\nEXIT\n") ≡ refused_with 2 8 }
{}

/// Reason 9: segment or row number 256.
pub fn segment_256_is_refused()
    ensures { assembly (text_of_cards (small_segments 256 0)) ≡ refused_with 511 9 }
{}

/// A procedure that begins at an entry; entries stand in the order of their places, and make a file of version 2.
pub fn entries_are_assembled()
    ensures entry { assembly (codes "SEGMENT MAIN 2\nMPCW P:B\nMKST\nNAMC 2,2\nENTR\nEXIT\nSEGMENT P 3\nEXIT\nB: MKST\nNAMC 0,9\nONE\nENTR\nEXIT\nENTRY B\n") ≡ Ok (record { segments = record { level = 2; entries = []; code = 0xbfffffffffff ∷ 0x00020000c003 ∷ 0xae5002aba3ff ∷ [] } ∷ record { level = 3; entries = 0x2000 ∷ []; code = 0xa3ae4009b1ab ∷ 0xa3ffffffffff ∷ [] } ∷ []; rows = [] }) }
    ensures in_order { assembly (codes "SEGMENT A 2\nEXIT\nENTRY M\nL: EXIT\nM: EXIT\nENTRY L\n") ≡ Ok (record { segments = record { level = 2; entries = 0x2000 ∷ 0x4000 ∷ []; code = 0xa3a3a3ffffff ∷ [] } ∷ []; rows = [] }) }
    ensures second_version { version_of (cards (codes "SEGMENT A 2\nEXIT\nL: EXIT\nENTRY L\n")) ≡ 2 }
    ensures first_version { version_of (cards (codes "SEGMENT A 2\nEXIT\nL: EXIT\n")) ≡ 1 }
    ensures label_named_entry { assembly (codes "SEGMENT A 2\nENTRY: ADD\nBRUN ENTRY\n") ≡ Ok (record { segments = record { level = 2; entries = []; code = 0x80a20000ffff ∷ [] } ∷ []; rows = [] }) }
{}

/// Reasons 1, 2, 5, 6 and 7 of ENTRY cards.
pub fn entry_cards_are_refused()
    ensures labelled { assembly (codes "SEGMENT A 2\nEXIT\nL: ENTRY L\n") ≡ refused_with 3 1 }
    ensures no_label { assembly (codes "SEGMENT A 2\nEXIT\nENTRY\n") ≡ refused_with 3 2 }
    ensures two_labels { assembly (codes "SEGMENT A 2\nEXIT\nENTRY L M\n") ≡ refused_with 3 2 }
    ensures unknown { assembly (codes "SEGMENT A 2\nEXIT\nENTRY L\nSEGMENT B 3\nEXIT\nL: EXIT\n") ≡ refused_with 3 5 }
    ensures outside { assembly (codes "ENTRY L\n") ≡ refused_with 1 6 }
    ensures in_row { assembly (codes "ROW R\nNUM 1\nENTRY L\n") ≡ refused_with 3 6 }
    ensures alone { assembly (codes "SEGMENT A 2\nENTRY L\n") ≡ refused_with 1 7 }
    ensures bad_alone { assembly (codes "SEGMENT A 2\nENTRY\nSEGMENT B 3\nEXIT\n") ≡ refused_with 1 7 }
{}

/// Reasons 2, 5 and 6 of an MPCW with a label, which is looked for in the segment named.
pub fn labels_in_segments_are_refused()
    ensures no_label { assembly (codes "SEGMENT A 2\nMPCW A:\n") ≡ refused_with 2 2 }
    ensures three_names { assembly (codes "SEGMENT A 2\nMPCW A:L:M\n") ≡ refused_with 2 2 }
    ensures unknown_there { assembly (codes "SEGMENT A 2\nMPCW P:L\nL: EXIT\nSEGMENT P 3\nEXIT\n") ≡ refused_with 2 5 }
    ensures unknown_outside { assembly (codes "MPCW P:L\nSEGMENT P 3\nEXIT\n") ≡ refused_with 1 5 }
    ensures known_outside { assembly (codes "MPCW P:L\nSEGMENT P 3\nL: EXIT\n") ≡ refused_with 1 6 }
{}

/// Reason 10: an ENTRY at 0:0, or at a place that is an entry already.
pub fn second_entries_are_refused()
    ensures at_first_place { assembly (codes "SEGMENT A 2\nL: EXIT\nENTRY L\n") ≡ refused_with 3 10 }
    ensures twice { assembly (codes "SEGMENT A 2\nEXIT\nL: EXIT\nENTRY L\nENTRY L\n") ≡ refused_with 5 10 }
    ensures same_place { assembly (codes "SEGMENT A 2\nMKST\nENTRY L\nENTRY M\nL: LT8 300\nM: EXIT\n") ≡ refused_with 4 10 }
{}

/// Reason 11: an MPCW with a label that isn't an entry of the segment named. An ENTRY card that is refused makes one too, but
/// none makes one at 0:0.
pub fn labels_without_entries_are_refused()
    ensures no_entry { assembly (codes "SEGMENT A 2\nMPCW P:L\nEXIT\nSEGMENT P 3\nEXIT\nL: EXIT\n") ≡ refused_with 2 11 }
    ensures at_first_place { assembly (codes "SEGMENT A 2\nMPCW P:L\nEXIT\nSEGMENT P 3\nL: EXIT\n") ≡ refused_with 2 11 }
    ensures named_at_first_place { assembly (codes "SEGMENT A 2\nMPCW P:L\nEXIT\nSEGMENT P 3\nL: EXIT\nENTRY L\n") ≡ refused_with 2 11 }
    ensures refused_entry { assembly (codes "SEGMENT A 2\nMPCW P:L\nEXIT\nSEGMENT P 3\nEXIT\nL: EXIT\nENTRY L\nENTRY L\n") ≡ refused_with 8 10 }
{}
