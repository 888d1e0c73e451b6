//! The map of core fits the limits: a number that doesn't is refused here, before anything is proved over it.

use b67_ctl::{DICTIONARIES, FIRST_DICTIONARY, SLOTS};
use b67_model::{FIXED_WORDS, LEAST_CORE, LEAST_STACK, MOST_JOBS, MOST_STACKS};

const _: () = prove!(SLOTS == MOST_STACKS);

const _: () = prove!(DICTIONARIES == MOST_JOBS);

const _: () = prove!(FIRST_DICTIONARY == FIXED_WORDS);

const _: () = prove!(FIXED_WORDS + 2 + LEAST_STACK as u32 <= LEAST_CORE);
