//! What is true of every exercise, and what the first seed gives.

ghost use Rattle.std.specs.Prelude.{◌≡◌, [], ◌∷◌};
ghost use Rattle.b67_gen.specs.Reads.{TextsHaveDecks};
ghost use Rattle.b67_gen.specs.Generated.{lengths, stores, after_draws};
ghost use Rattle.b67_gen.specs.Worked.{first_draws, first_stores};

/// The first thirteen draws of seed 1, and the array and the stores of its exercise of one array.
pub fn seed_one()
    ensures draws { first_draws 13 1 ≡ 16838 ∷ 5758 ∷ 10113 ∷ 17515 ∷ 31051 ∷ 5627 ∷ 23010 ∷ 7419 ∷ 16212 ∷ 4086 ∷ 2749 ∷ 12767 ∷ 9084 ∷ [] }
    ensures arrays { lengths 1 1 ≡ 88 ∷ [] }
    ensures stores { stores (88 ∷ []) 4 (after_draws 1 1) ≡ first_stores }
{}

/// The text of each exercise has a deck: a reader refuses no card of it. So `deck_of` is refused nothing but memory.
pub fn texts_have_decks()
    ensures { TextsHaveDecks }
{}
