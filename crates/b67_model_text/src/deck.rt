//! A deck: the run that its cards describe.

use crate::card::Cards;
use crate::text::Name;
use b67_word::{Bytes, List, Numbers};

/// A switch to a task of a job, once a count of operators is reached.
#[derive(Clone, Copy, Debug, PartialEq, Eq)]
pub struct Switch {
    pub count: u64,
    pub job: u8,
    pub task: u32,
}

/// A list of switches.
pub type Switches = List<Switch>;

/// A job's program: assembly cards, or the bytes of a codefile.
#[derive(Drop)]
pub enum Body {
    Cards(Cards),
    Bytes(Bytes),
}

/// A job: its name, the number of its `?JOB` card, how many operators it may make, the number of its `?ASM` or
/// `?HEX` card, its program, and the numbers that it may read.
#[derive(Drop)]
pub struct Job {
    pub name: Name,
    pub limit: u64,
    pub card: u32,
    pub body_card: u32,
    pub program: Body,
    pub numbers: Numbers,
}

/// A list of jobs.
pub type Jobs = List<Job>;

/// A run: the size of its stacks in words, the operators in a turn, the count at which it halts, its switches,
/// and its jobs.
#[derive(Drop)]
pub struct Deck {
    pub stack: u16,
    pub quantum: u32,
    pub halt: Option<u64>,
    pub switches: Switches,
    pub jobs: Jobs,
}

/// The word that begins a card.
#[derive(Clone, Copy, Debug, PartialEq, Eq)]
pub enum Keyword {
    Stack,
    Quantum,
    Halt,
    Switch,
    Job,
    Limit,
    Asm,
    Hex,
    Data,
    End,
}

/// Where a card of a deck stands.
#[derive(Clone, Copy, Debug, PartialEq, Eq)]
pub enum Stand {
    /// Before any job.
    Front,
    /// After `?JOB`.
    Begun,
    /// After `?LIMIT`.
    Limited,
    /// In assembly cards.
    InAsm,
    /// In hexadecimal cards.
    InHex,
    /// In cards of numbers.
    InData,
    /// After a job.
    Ended,
}
