//! Where the cards of a deck may stand.

ghost use Rattle.std.specs.Prelude.{◌≡◌, ◌-◌, slice_get, length, [], ℕ, List};
ghost use Rattle.b67_model_text.specs.Command as card;
ghost use Rattle.b67_model_text.specs.Placing.{is_above};
ghost use Rattle.b67_card.specs.Said.{said_command};
ghost use Rattle.b67_card.specs.Shape.{Shows, Placed, deck_shaped};

use crate::command::{Command, Refused};
use b67_model::{MOST_JOBS, MOST_SWITCHES};
use b67_model_text::{Deck, Jobs, Stand, Switch, Switches};
use std::alloc::Global;

/// What the cards so far have said.
#[derive(Drop)]
pub struct Shape {
    pub stand: Stand,
    pub stack: Option<u16>,
    pub quantum: Option<u32>,
    pub halt: Option<u64>,
    pub switches: Switches,
    pub jobs: u8,
}

fn is_above_last(switches: &[Switch], count: u64) -> bool
    ensures { result ≡ is_above (slice_get switches.now (length switches.now - 1)) count }
{
    match switches.last() {
        Some(last) => last.count < count,
        None => true,
    }
}

impl Shape {
    /// The shape of a deck of which no card was seen yet.
    pub fn new(alloc: Global) -> Self
        ensures { Shows result [] }
    {
        Shape {
            stand: Stand::Front,
            stack: None,
            quantum: None,
            halt: None,
            switches: Switches::new(alloc),
            jobs: 0,
        }
    }

    fn stack(&mut self, n: u16) -> Result<(), Refused>
        ensures { (before : List card.Command) → Shows self.old before → Placed result before (card.Stack n) self.new }
    {
        if self.stand != Stand::Front {
            return Err(Refused::Reason(5));
        }
        if self.stack.is_some() {
            return Err(Refused::Reason(6));
        }
        self.stack = Some(n);
        Ok(())
    }

    fn switch(&mut self, switch: Switch) -> Result<(), Refused>
        ensures { (before : List card.Command) → Shows self.old before → Placed result before (card.Switch switch.count switch.job switch.task) self.new }
    {
        if self.stand != Stand::Front {
            return Err(Refused::Reason(5));
        }
        if !is_above_last(self.switches.as_slice(), switch.count) {
            return Err(Refused::Reason(7));
        }
        if self.switches.as_slice().len() >= MOST_SWITCHES as usize {
            return Err(Refused::Reason(8));
        }
        self.switches.push(switch)?;
        Ok(())
    }

    fn quantum(&mut self, n: u32) -> Result<(), Refused>
        ensures { (before : List card.Command) → Shows self.old before → Placed result before (card.Quantum n) self.new }
    {
        if self.stand != Stand::Front {
            return Err(Refused::Reason(5));
        }
        if self.quantum.is_some() {
            return Err(Refused::Reason(6));
        }
        self.quantum = Some(n);
        Ok(())
    }

    fn halt(&mut self, n: u64) -> Result<(), Refused>
        ensures { (before : List card.Command) → Shows self.old before → Placed result before (card.Halt n) self.new }
    {
        if self.stand != Stand::Front {
            return Err(Refused::Reason(5));
        }
        if self.halt.is_some() {
            return Err(Refused::Reason(6));
        }
        self.halt = Some(n);
        Ok(())
    }

    fn job(&mut self) -> Result<(), Refused>
        ensures { (before : List card.Command) (name : List ℕ) → Shows self.old before → Placed result before (card.Job name) self.new }
    {
        match self.stand {
            Stand::Front | Stand::Ended => {
                if self.jobs >= MOST_JOBS {
                    return Err(Refused::Reason(9));
                }
                self.jobs += 1;
                self.stand = Stand::Begun;
                Ok(())
            }
            _ => Err(Refused::Reason(5)),
        }
    }

    fn limit(&mut self) -> Result<(), Refused>
        ensures { (before : List card.Command) (n : ℕ) → Shows self.old before → Placed result before (card.Limit n) self.new }
    {
        match self.stand {
            Stand::Begun => {
                self.stand = Stand::Limited;
                Ok(())
            }
            _ => Err(Refused::Reason(5)),
        }
    }

    fn asm(&mut self) -> Result<(), Refused>
        ensures { (before : List card.Command) → Shows self.old before → Placed result before (card.Asm) self.new }
    {
        match self.stand {
            Stand::Begun | Stand::Limited => {
                self.stand = Stand::InAsm;
                Ok(())
            }
            _ => Err(Refused::Reason(5)),
        }
    }

    fn hex(&mut self) -> Result<(), Refused>
        ensures { (before : List card.Command) → Shows self.old before → Placed result before (card.Hex) self.new }
    {
        match self.stand {
            Stand::Begun | Stand::Limited => {
                self.stand = Stand::InHex;
                Ok(())
            }
            _ => Err(Refused::Reason(5)),
        }
    }

    fn data(&mut self) -> Result<(), Refused>
        ensures { (before : List card.Command) → Shows self.old before → Placed result before (card.Data) self.new }
    {
        match self.stand {
            Stand::InAsm | Stand::InHex => {
                self.stand = Stand::InData;
                Ok(())
            }
            Stand::Begun | Stand::Limited => Err(Refused::Reason(10)),
            _ => Err(Refused::Reason(5)),
        }
    }

    fn end(&mut self) -> Result<(), Refused>
        ensures { (before : List card.Command) → Shows self.old before → Placed result before (card.End) self.new }
    {
        match self.stand {
            Stand::InAsm | Stand::InHex | Stand::InData => {
                self.stand = Stand::Ended;
                Ok(())
            }
            Stand::Begun | Stand::Limited => Err(Refused::Reason(10)),
            _ => Err(Refused::Reason(5)),
        }
    }

    fn plain(&self) -> Result<(), Refused>
        ensures { (before : List card.Command) (text : List ℕ) → Shows self.now before → Placed result before (card.Plain text) self.now }
    {
        match self.stand {
            Stand::InAsm | Stand::InHex | Stand::InData => Ok(()),
            _ => Err(Refused::Reason(5)),
        }
    }

    /// Takes in where a card stands, or says why it may not stand there: the lowest reason of 5 to 10.
    pub fn take(&mut self, command: &Command) -> Result<(), Refused>
        ensures { (before : List card.Command) → Shows self.old before → Placed result before (said_command command.now) self.new }
    {
        match command {
            Command::Stack(n) => self.stack(*n),
            Command::Quantum(n) => self.quantum(*n),
            Command::Halt(n) => self.halt(*n),
            Command::Switch(switch) => self.switch(*switch),
            Command::Job(_) => self.job(),
            Command::Limit(_) => self.limit(),
            Command::Asm => self.asm(),
            Command::Hex => self.hex(),
            Command::Data => self.data(),
            Command::End => self.end(),
            Command::Plain(_) => self.plain(),
        }
    }
    /// The deck of these jobs.
    pub fn into_deck(self, jobs: Jobs) -> Deck
        ensures { result ≡ deck_shaped self jobs }
    {
        Deck {
            stack: self.stack.unwrap_or(512),
            quantum: self.quantum.unwrap_or(1_000),
            halt: self.halt,
            switches: self.switches,
            jobs,
        }
    }
}
