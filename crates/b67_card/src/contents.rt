//! What the cards of a deck add to its jobs.

ghost use Rattle.std.specs.Prelude.{◌≡◌, ℕ, List, [], ◌∷◌, ◌++◌, map, reverse, OnOk, IfOk, None};
ghost use Rattle.b67_model_text.specs.declared.deck.Job as job;
ghost use Rattle.b67_model_text.specs.declared.deck.Stand.TheVariants.{Front};
ghost use Rattle.b67_model_text.specs.Command as text;
ghost use Rattle.b67_model_text.specs.Placing.{numbers, operands_in};
ghost use Rattle.b67_card.specs.Said.{said_command};
ghost use Rattle.b67_card.specs.Contents.{HoldsJobs, AddsCard, Filled, Appended, with_card, with_text, with_limit, with_program, new_job, to_newest};

use crate::command::{Command, Refused};
use crate::hex::{is_hex, put_digits};
use crate::word::{operand_in, words};
use b67_model::USUAL_LIMIT;
use b67_model_text::{Body, Card, Cards, Job, Jobs, Name, Stand};
use b67_word::{Bytes, Numbers};
use std::alloc::{AllocError, Global};

/// The jobs of a deck, with the newest apart.
#[derive(Drop)]
pub struct Contents {
    pub older: Jobs,
    pub newest: Option<Job>,
}

fn put_operands(words: &[&[u8]], into: &mut Numbers) -> Result<(), Refused>
    ensures { Appended result (operands_in (map (λ w. w.now) words.now)) into.old into.new }
{
    for word in words {
        match operand_in(word) {
            Some(n) => into.push(n)?,
            None => return Err(Refused::Reason(12)),
        }
    }
    Ok(())
}

// Appends the numbers of a card.
fn put_numbers(alloc: Global, text: &[u8], into: &mut Numbers) -> Result<(), Refused>
    ensures { Appended result (numbers text.now) into.old into.new }
{
    let words = words(alloc, text)?;
    put_operands(words.as_slice(), into)
}

fn put_card(card: Card, into: &mut Body) -> Result<(), AllocError>
    ensures { OnOk result (into.new ≡ with_card card into.old) }
{
    match into {
        Body::Cards(cards) => cards.push(card),
        Body::Bytes(bytes) => put_digits(card.text.as_str().as_bytes(), bytes),
    }
}

fn fill(alloc: Global, stand: Stand, card: Card, job: &mut Job) -> Result<(), Refused>
    ensures { Filled result stand card job.old job.new }
{
    match stand {
        Stand::InData => put_numbers(alloc, card.text.as_str().as_bytes(), &mut job.numbers),
        Stand::InHex => {
            if !is_hex(card.text.as_str().as_bytes()) {
                return Err(Refused::Reason(11));
            }
            put_card(card, &mut job.program)?;
            Ok(())
        }
        _ => {
            put_card(card, &mut job.program)?;
            Ok(())
        }
    }
}

impl Contents {
    /// The contents of no card.
    pub fn new(alloc: Global) -> Self
        ensures { HoldsJobs result [] }
    {
        Contents {
            older: Jobs::new(alloc),
            newest: None,
        }
    }

    // Puts the newest job behind the others.
    fn close(&mut self) -> Result<(), AllocError>
        ensures { OnOk result ((jobs : List job.Job) → HoldsJobs self.old jobs → (self.new.newest ≡ None) × (jobs ≡ reverse self.new.older)) }
    {
        match self.newest.take() {
            Some(job) => self.older.push(job),
            None => Ok(()),
        }
    }

    fn begin(&mut self, alloc: Global, number: u32, name: Name) -> Result<(), AllocError>
        ensures { OnOk result ((jobs : List job.Job) → HoldsJobs self.old jobs → HoldsJobs self.new (new_job number name ∷ jobs)) }
    {
        self.close()?;
        self.newest = Some(Job {
            name,
            limit: USUAL_LIMIT,
            card: number,
            body_card: 0,
            program: Body::Cards(Cards::new(alloc)),
            numbers: Numbers::new(alloc),
        });
        Ok(())
    }

    fn limit(&mut self, n: u64)
        ensures { (jobs : List job.Job) → HoldsJobs self.old jobs → HoldsJobs self.new (to_newest (with_limit n) jobs) }
    {
        match &mut self.newest {
            Some(job) => job.limit = n,
            None => {}
        }
    }

    fn program(&mut self, number: u32, program: Body)
        ensures { (jobs : List job.Job) → HoldsJobs self.old jobs → HoldsJobs self.new (to_newest (with_program number program) jobs) }
    {
        match &mut self.newest {
            Some(job) => {
                job.body_card = number;
                job.program = program;
            }
            None => {}
        }
    }

    fn plain(&mut self, alloc: Global, stand: Stand, card: Card) -> Result<(), Refused>
        ensures { (jobs : List job.Job) → HoldsJobs self.old jobs → (jobs ≡ [] → stand ≡ Front) → AddsCard result stand card.number (text.Plain card.text) jobs self.new }
    {
        match &mut self.newest {
            Some(job) => fill(alloc, stand, card, job),
            None => Ok(()),
        }
    }

    /// Takes in what a card adds that stands there, or says why its digits are refused.
    pub fn add(
        &mut self,
        alloc: Global,
        stand: Stand,
        number: u32,
        command: Command,
    ) -> Result<(), Refused>
        ensures { (jobs : List job.Job) → HoldsJobs self.old jobs → (jobs ≡ [] → stand ≡ Front) → AddsCard result stand number (said_command command) jobs self.new }
    {
        match command {
            Command::Job(name) => self.begin(alloc, number, name)?,
            Command::Limit(n) => self.limit(n),
            Command::Asm => self.program(number, Body::Cards(Cards::new(alloc))),
            Command::Hex => self.program(number, Body::Bytes(Bytes::new(alloc))),
            Command::Plain(text) => return self.plain(alloc, stand, Card { number, text }),
            Command::Stack(_) | Command::Quantum(_) | Command::Halt(_) | Command::Switch(_) => {}
            Command::Data | Command::End => {}
        }
        Ok(())
    }

    /// All the jobs, in the order of their cards.
    pub fn into_jobs(mut self) -> Result<Jobs, AllocError>
        ensures { IfOk result (λ all. (jobs : List job.Job) → HoldsJobs self jobs → jobs ≡ reverse all) }
    {
        self.close()?;
        let Contents { older, newest } = self;
        drop(newest);
        Ok(older)
    }
}
