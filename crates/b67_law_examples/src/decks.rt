//! What decks say, and which cards are refused.

ghost use Rattle.std.specs.Prelude.{◌≡◌, [], ◌∷◌, None, Ok, Some, codes, negsuc, pos};
ghost use Rattle.b67_law_examples.specs.Cards.{refused_with};
ghost use Rattle.b67_law_examples.specs.CardTexts.{small_job, sum_deck, text_of_cards, cards_times};
ghost use Rattle.b67_model_text.specs.declared.deck.Body.TheVariants.{Bytes, Cards};
ghost use Rattle.b67_model_text.specs.Deck.{deck_of, hexadecimal_cards};

/// A deck of no bytes has no jobs and the defaults.
pub fn no_bytes_are_a_deck()
    ensures { deck_of [] ≡ Ok (record { stack = 512; quantum = 1000; halt = None; switches = []; jobs = [] }) }
{}

/// A job with the bytes of its codefile.
pub fn job_of_hexadecimal_cards_is_read()
    ensures { deck_of (text_of_cards sum_deck) ≡ Ok (record { stack = 512; quantum = 1000; halt = None; switches = []; jobs = record { name = codes "SUM"; card = 1; limit = 1000000; body_card = 2; program = Bytes (0x42 ∷ 0x36 ∷ 0x37 ∷ 0x43 ∷ 0x4f ∷ 0x44 ∷ 0x45 ∷ 0x31 ∷ 0x0 ∷ 0x1 ∷ 0x0 ∷ 0x0 ∷ 0x2 ∷ 0x0 ∷ 0x2 ∷ 0x0 ∷ 0x3 ∷ 0xae ∷ 0x40 ∷ 0x9 ∷ 0xb2 ∷ 0x2 ∷ 0xb2 ∷ 0x0 ∷ 0x3 ∷ 0x3 ∷ 0x80 ∷ 0xab ∷ 0xa3 ∷ 0xff ∷ 0xff ∷ []); numbers = [] } ∷ [] }) }
{}

/// Each parameter at its edge, and numbers of a job.
pub fn edges_are_read()
    ensures edges { deck_of (codes "?STACK 16383\n?QUANTUM 1000000\n?HALT 800000000\n?SWITCH 0 8.100000000\n?SWITCH 800000000 1.1") ≡ Ok (record { stack = 16383; quantum = 1000000; halt = Some 800000000; switches = record { count = 0; job = 8; task = 100000000 } ∷ record { count = 800000000; job = 1; task = 1 } ∷ []; jobs = [] }) }
    ensures hex_cases { deck_of (codes "?JOB A\n?HEX\naBFf0019\n?END") ≡ Ok (record { stack = 512; quantum = 1000; halt = None; switches = []; jobs = record { name = codes "A"; card = 1; limit = 1000000; body_card = 2; program = Bytes (171 ∷ 255 ∷ 0 ∷ 25 ∷ []); numbers = [] } ∷ [] }) }
    ensures numbers { deck_of (codes "?JOB A\n?ASM\n?DATA\n  7 -2   0 549755813887\n-549755813887\n?END") ≡ Ok (record { stack = 512; quantum = 1000; halt = None; switches = []; jobs = record { name = codes "A"; card = 1; limit = 1000000; body_card = 2; program = Cards ([]); numbers = pos 7 ∷ negsuc 1 ∷ pos 0 ∷ pos 549755813887 ∷ negsuc 549755813886 ∷ [] } ∷ [] }) }
{}

/// A job's name is capital letters and digits; a deck may not end inside a job.
pub fn jobs_are_refused_by_name()
    ensures small { deck_of (codes "?JOB a") ≡ refused_with 1 4 }
    ensures inside { deck_of (codes "?JOB A") ≡ refused_with 1 13 }
    ensures name_long { deck_of (codes "?JOB ABCDEFGHIJKLMNOPQ") ≡ refused_with 1 4 }
    ensures name_digit { deck_of (codes "?JOB 1A") ≡ refused_with 1 4 }
    ensures ends_in_data { deck_of (codes "?JOB A\n?ASM\n?DATA\n\n5\n\n\n") ≡ refused_with 5 13 }
{}

/// Reasons 1 and 3, and a command that a space makes a plain card.
pub fn long_and_unknown_cards_are_refused()
    ensures eighty_one { deck_of (codes "?JOB A\nXXXXXXXXXXXXXXXXXXXXXXXXXXXXXXXXXXXXXXXXXXXXXXXXXXXXXXXXXXXXXXXXXXXXXXXXXXXXXXXXX\n") ≡ refused_with 2 1 }
    ensures unknown { deck_of (codes "?STACKS 64") ≡ refused_with 1 3 }
    ensures space_in_front { deck_of (codes " ?END") ≡ refused_with 1 5 }
{}

/// Reason 4: a parameter of ?STACK that is missing, one too many, malformed or out of its range.
pub fn stack_sizes_are_refused()
    ensures no_parameter { deck_of (codes "?STACK") ≡ refused_with 1 4 }
    ensures two_parameters { deck_of (codes "?STACK 64 64") ≡ refused_with 1 4 }
    ensures too_low { deck_of (codes "?STACK 63") ≡ refused_with 1 4 }
    ensures too_high { deck_of (codes "?STACK 16384") ≡ refused_with 1 4 }
    ensures zero_in_front { deck_of (codes "?STACK 064") ≡ refused_with 1 4 }
    ensures plus_sign { deck_of (codes "?STACK +64") ≡ refused_with 1 4 }
    ensures minus_sign { deck_of (codes "?STACK -64") ≡ refused_with 1 4 }
{}

/// Reason 4: parameters of the other run cards.
pub fn parameters_are_refused()
    ensures too_high_halt { deck_of (codes "?HALT 800000001") ≡ refused_with 1 4 }
    ensures quantum_0 { deck_of (codes "?QUANTUM 0") ≡ refused_with 1 4 }
    ensures switch_job { deck_of (codes "?SWITCH 1 9.1") ≡ refused_with 1 4 }
    ensures switch_task { deck_of (codes "?SWITCH 1 1.0") ≡ refused_with 1 4 }
    ensures switch_dots { deck_of (codes "?SWITCH 1 1.1.1") ≡ refused_with 1 4 }
{}

/// Reason 5: a card of a job that the job has already.
pub fn second_job_cards_are_refused()
    ensures limit_twice { deck_of (codes "?JOB A\n?LIMIT 5\n?LIMIT 6") ≡ refused_with 3 5 }
    ensures asm_twice { deck_of (codes "?JOB A\n?ASM\n?ASM") ≡ refused_with 3 5 }
    ensures data_twice { deck_of (codes "?JOB A\n?ASM\n?DATA\n?DATA") ≡ refused_with 4 5 }
{}

/// Reason 5: a card out of order, or a plain card outside a body.
pub fn cards_out_of_order_are_refused()
    ensures run_card_late { deck_of (codes "?JOB A\n?HEX\n00\n?END\n?STACK 64") ≡ refused_with 5 5 }
    ensures plain_first { deck_of (codes "X") ≡ refused_with 1 5 }
    ensures plain_after { deck_of (codes "?JOB A\n?HEX\n00\n?END\nX") ≡ refused_with 5 5 }
    ensures job_in_job { deck_of (codes "?JOB A\n?JOB B") ≡ refused_with 2 5 }
    ensures end_first { deck_of (codes "?END") ≡ refused_with 1 5 }
    ensures end_after { deck_of (codes "?JOB A\n?HEX\n00\n?END\n?END") ≡ refused_with 5 5 }
{}

/// Reasons 6 and 7: a repeated card, and a switch that doesn't rise; a card out of its range is refused first.
pub fn repeated_cards_are_refused()
    ensures repeated { deck_of (codes "?STACK 64\n?QUANTUM 5\n?STACK 65") ≡ refused_with 3 6 }
    ensures repeated_out_of_range { deck_of (codes "?STACK 64\n?STACK 63") ≡ refused_with 2 4 }
    ensures switch_equal { deck_of (codes "\n?SWITCH 7 1.1\n\n?SWITCH 7 1.2") ≡ refused_with 4 7 }
{}

/// Reason 9.
pub fn job_9_is_refused()
    ensures nine { deck_of (text_of_cards (cards_times 9 small_job)) ≡ refused_with 33 9 }
{}

/// Reason 10.
pub fn jobs_without_a_program_are_refused()
    ensures end_without { deck_of (codes "?JOB A\n?END") ≡ refused_with 2 10 }
    ensures data_without { deck_of (codes "?JOB A\n?LIMIT 5\n?DATA") ≡ refused_with 3 10 }
{}

/// Reasons 11 and 12: malformed hexadecimal and number cards.
pub fn bodies_are_refused()
    ensures odd_hex { deck_of (codes "?JOB A\n?HEX\n000") ≡ refused_with 3 11 }
    ensures bad_hex { deck_of (codes "?JOB A\n?HEX\n0g") ≡ refused_with 3 11 }
    ensures hex_space { deck_of (codes "?JOB A\n?HEX\n00 00") ≡ refused_with 3 11 }
    ensures minus_zero { deck_of (codes "?JOB A\n?ASM\n?DATA\n-0") ≡ refused_with 4 12 }
    ensures too_far { deck_of (codes "?JOB A\n?ASM\n?DATA\n549755813888") ≡ refused_with 4 12 }
    ensures letters { deck_of (codes "?JOB A\n?ASM\n?DATA\n5 x") ≡ refused_with 4 12 }
{}

/// Reasons 1, 2 and 11 of hexadecimal cards without a deck, card by card.
pub fn hexadecimal_cards_are_refused()
    ensures odd { hexadecimal_cards (codes "42\n\n423\n4\t\n") ≡ refused_with 3 11 }
    ensures tab { hexadecimal_cards (codes "4\t\n") ≡ refused_with 1 2 }
    ensures command { hexadecimal_cards (codes "42\n?HEX\n") ≡ refused_with 2 11 }
    ensures space_in_front { hexadecimal_cards (codes " 42") ≡ refused_with 1 11 }
    ensures long { hexadecimal_cards (codes "000000000000000000000000000000000000000000000000000000000000000000000000000000000\n") ≡ refused_with 1 1 }
    ensures none { hexadecimal_cards (codes "\n\n") ≡ Ok [] }
{}
