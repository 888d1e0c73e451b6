//! What a card says by itself.

ghost use Rattle.std.specs.Prelude.{◌≡◌, ◌<◌, ◌≤◌, ◌^◌, ◌&&◌, map, length, is_some, nat_le, [], ◌∷◌, IfSome};
ghost use Rattle.std.specs.Option.{option_map};
ghost use Rattle.std.specs.List.{list_all};
ghost use Rattle.std.specs.Char.{is_ascii};
ghost use Rattle.b67_model_text.specs.Cards.{is_name};
ghost use Rattle.b67_model_text.specs.Command as card;
ghost use Rattle.b67_model_text.specs.declared.deck.Keyword.TheVariants as keywords;
ghost use Rattle.b67_card.specs.Said.{CardSays, IsPlain, said_command};
ghost use Rattle.b67_card.specs.declared.command.Refused.TheVariants.{Memory};

use crate::word::{name, number_in, parted, words};
use b67_model::{
    LEAST_STACK, MOST_JOBS, MOST_LIMIT, MOST_MADE, MOST_NUMBER, MOST_QUANTUM, MOST_STACK,
};
use b67_model_text::{Keyword, Name, Switch, Text};
use std::alloc::{AllocError, Global};

/// What a card says.
#[derive(Drop)]
pub enum Command {
    Stack(u16),
    Quantum(u32),
    Halt(u64),
    Switch(Switch),
    Job(Name),
    Limit(u64),
    Asm,
    Hex,
    Data,
    End,
    Plain(Text),
}

/// Why a card is refused.
#[derive(Debug, Drop)]
pub enum Refused {
    Reason(u8),
    Memory,
}

impl From<AllocError> for Refused {
    ghost from_gives = { λ _ e. e ≡ Memory };

    fn from(_: AllocError) -> Refused {
        Refused::Memory
    }
}

fn keyword_of(word: &[u8]) -> Option<Keyword>
    ensures { result ≡ card.keyword_of word.now }
{
    match word {
        b"?STACK" => Some(Keyword::Stack),
        b"?QUANTUM" => Some(Keyword::Quantum),
        b"?HALT" => Some(Keyword::Halt),
        b"?SWITCH" => Some(Keyword::Switch),
        b"?JOB" => Some(Keyword::Job),
        b"?LIMIT" => Some(Keyword::Limit),
        b"?ASM" => Some(Keyword::Asm),
        b"?HEX" => Some(Keyword::Hex),
        b"?DATA" => Some(Keyword::Data),
        b"?END" => Some(Keyword::End),
        _ => None,
    }
}

// A lone parameter, a number within these bounds.
fn one_number(parameters: &[&[u8]], low: u64, high: u64) -> Option<u64>
    requires { high < 2 ^ 60 }
    ensures exact { result ≡ card.one_number low high (map (λ w. w.now) parameters.now) }
    ensures within { IfSome result (λ n. n ≤ high) }
{
    match parameters {
        [] => None,
        [word, more @ ..] => {
            if more.is_empty() {
                number_in(word, low, high)
            } else {
                None
            }
        }
    }
}

// A numeral that fits its type.
fn stack(parameters: &[&[u8]]) -> Option<Command>
    ensures { option_map said_command result ≡ card.says keywords.Stack (map (λ w. w.now) parameters.now) }
{
    match one_number(parameters, LEAST_STACK as u64, MOST_STACK as u64) {
        Some(n) => Some(Command::Stack(n as u16)),
        None => None,
    }
}

fn quantum(parameters: &[&[u8]]) -> Option<Command>
    ensures { option_map said_command result ≡ card.says keywords.Quantum (map (λ w. w.now) parameters.now) }
{
    match one_number(parameters, 1, MOST_QUANTUM as u64) {
        Some(n) => Some(Command::Quantum(n as u32)),
        None => None,
    }
}

fn halt(parameters: &[&[u8]]) -> Option<Command>
    ensures { option_map said_command result ≡ card.says keywords.Halt (map (λ w. w.now) parameters.now) }
{
    match one_number(parameters, 1, MOST_MADE) {
        Some(n) => Some(Command::Halt(n)),
        None => None,
    }
}

fn limit(parameters: &[&[u8]]) -> Option<Command>
    ensures { option_map said_command result ≡ card.says keywords.Limit (map (λ w. w.now) parameters.now) }
{
    match one_number(parameters, 1, MOST_LIMIT) {
        Some(n) => Some(Command::Limit(n)),
        None => None,
    }
}

// Task t of job j, which is written j.t.
fn target(word: &[u8]) -> Option<(u8, u32)>
    ensures { option_map (λ t. (t.0, t.1)) result ≡ card.target word.now }
{
    let (job, task) = parted(word, b'.')?;
    let job = number_in(job, 1, MOST_JOBS as u64)?;
    let task = number_in(task, 1, MOST_NUMBER as u64)?;
    Some((job as u8, task as u32))
}

fn switch_at(count: &[u8], word: &[u8]) -> Option<Command>
    ensures { option_map said_command result ≡ card.switch (count.now ∷ word.now ∷ []) }
{
    let count = number_in(count, 0, MOST_MADE)?;
    let (job, task) = target(word)?;
    Some(Command::Switch(Switch { count, job, task }))
}

fn switch(parameters: &[&[u8]]) -> Option<Command>
    ensures { option_map said_command result ≡ card.says keywords.Switch (map (λ w. w.now) parameters.now) }
{
    match parameters {
        [count, word] => switch_at(count, word),
        _ => None,
    }
}

fn job_named(word: &[u8]) -> Option<Command>
    ensures { option_map said_command result ≡ card.job_named word.now }
{
    match name(word) {
        Some(name) => Some(Command::Job(name)),
        None => None,
    }
}

fn job(parameters: &[&[u8]]) -> Option<Command>
    ensures { option_map said_command result ≡ card.says keywords.Job (map (λ w. w.now) parameters.now) }
{
    match parameters {
        [] => None,
        [word, more @ ..] => {
            if more.is_empty() {
                job_named(word)
            } else {
                None
            }
        }
    }
}

// A card without parameters.
fn alone(command: Command, parameters: &[&[u8]]) -> Option<Command>
    ensures { option_map said_command result ≡ card.alone (said_command command) (map (λ w. w.now) parameters.now) }
{
    if parameters.is_empty() {
        Some(command)
    } else {
        None
    }
}

fn says(keyword: Keyword, parameters: &[&[u8]]) -> Option<Command>
    ensures { option_map said_command result ≡ card.says keyword (map (λ w. w.now) parameters.now) }
{
    match keyword {
        Keyword::Stack => stack(parameters),
        Keyword::Quantum => quantum(parameters),
        Keyword::Halt => halt(parameters),
        Keyword::Switch => switch(parameters),
        Keyword::Job => job(parameters),
        Keyword::Limit => limit(parameters),
        Keyword::Asm => alone(Command::Asm, parameters),
        Keyword::Hex => alone(Command::Hex, parameters),
        Keyword::Data => alone(Command::Data, parameters),
        Keyword::End => alone(Command::End, parameters),
    }
}

fn command_of(words: &[&[u8]]) -> Result<Command, Refused>
    ensures { CardSays result (card.command_of (map (λ w. w.now) words.now)) }
{
    match words {
        [] => Err(Refused::Reason(3)),
        [key, parameters @ ..] => match keyword_of(key) {
            None => Err(Refused::Reason(3)),
            Some(keyword) => match says(keyword, parameters) {
                None => Err(Refused::Reason(4)),
                Some(command) => Ok(command),
            },
        },
    }
}

fn are_printable(text: &[u8]) -> bool
    ensures { result ≡ list_all card.is_printable text.now }
{
    text.iter().all(|b| b' ' <= *b && *b <= b'~')
}

/// What is refused of any card: 1 a text that is too long, 2 a character outside space to tilde.
pub fn plain(text: &[u8]) -> Result<Text, Refused>
    ensures { IsPlain result text.now (card.plain_card text.now) }
{
    if text.len() > 80 {
        return Err(Refused::Reason(1));
    }
    if !are_printable(text) {
        return Err(Refused::Reason(2));
    }
    Ok(Text::new(text))
}

/// What a card says, or the lowest reason of 1 to 4 why it is refused.
pub fn said(alloc: Global, text: &[u8]) -> Result<Command, Refused>
    ensures { CardSays result (card.said text.now) }
{
    let plain = plain(text)?;
    match text {
        [b'?', ..] => {
            let words = words(alloc, text)?;
            command_of(words.as_slice())
        }
        _ => Ok(Command::Plain(plain)),
    }
}
