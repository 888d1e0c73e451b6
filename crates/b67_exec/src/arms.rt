//! The operator at the running place, read syllable after syllable: one arm for each first syllable. An arm reads its syllables
//! before it makes the next reader: so what is left of the word keeps its register.

ghost use Rattle.std.specs.Prelude.{◌≡◌, ◌/◌, ◌^◌, ◌*◌, ◌+◌, ◌%◌, ◌<◌, Some, true, false};
ghost use Rattle.b67_ctl.specs.Layout.{IsPlace};
ghost use Rattle.b67_model.specs.declared.operators.Op.TheVariants as ops;
ghost use Rattle.b67_model.specs.declared.operators.Code.TheVariants as codes;
ghost use Rattle.b67_model.specs.Operators.{form_of, Alone, OneMore, TwoMore, Literal, branch};
ghost use Rattle.b67_model.specs.Rows.{row, plain as plain_row};
ghost use Rattle.b67_stack.specs.declared.Step.TheVariants as answers;
ghost use Rattle.b67_word.specs.declared.faults.Fault.TheVariants.{InvalidOperator};
ghost use Rattle.b67_layout.specs.Meets.{here, Meets, RunsSome, ForEach};
ghost use Rattle.b67_layout_step.specs.Keeping.{is_leaving};
ghost use Rattle.b67_exec.specs.Operators.{moves_cells, is_on_top, goes_behind, store_code, BeginsWhole};
ghost use Rattle.b67_exec.specs.Near.{ReaderBehind, WentOn, MadeNear, Makes, outcome_of, code_of_numbers, word_op, branch_op};
ghost use Rattle.b67_exec.specs.Far.{MadeOn, MadeAway, MadeWent, MadeLeaving, LeavesBy, LeadsTo};

use crate::apart::{
    Went, is_done, makes_entr, makes_exit, makes_far_stff, makes_far_valc, makes_indx,
    makes_last_exit, makes_last_retn, makes_load, makes_nxlv, makes_plain, makes_retn, makes_stff,
    makes_store, makes_store_from,
};
use crate::firsts::{Near, near_of};
use crate::operators::makes_whole;
use crate::reader::{Reader, after, at_word, behind, first, next_word, place, reader_to};
use crate::short_ways::{evaluates_own, loads_own};
use b67_arith::Numeric;
use b67_entry::mkst;
use b67_exec_cells::{
    branch_to, dlet, drop_cells, dupl, exch, literal, mpcw, namc, on_numbers, top_cell,
};
use b67_fetch::store_near;
use b67_model::Code;
use b67_stack::{Cpu, Step};
use b67_word::{Fault, Place};

/// What became of an operator: it was made, and its task goes on in the segment, or elsewhere, or elsewhere with an activation
/// record left, whose words go up to below an address; or it wasn't made.
#[derive(Clone, Copy, Debug, PartialEq, Eq)]
pub enum Made {
    On,
    Away,
    Left(u32),
    Not,
}

/// Whether an operator was made. The reader then goes on behind it. If it wasn't, `why` is what it answered.
#[inline(always)]
fn went_on(step: Step, reader: &mut Reader, next: Reader, why: &mut Step) -> bool
    ensures { WentOn step result reader.old next reader.new why.new }
{
    match step {
        Step::Done => {
            *reader = next;
            true
        }
        other => {
            *why = other;
            false
        }
    }
}

/// No operator is read: its syllables go past the end of the code.
#[inline(always)]
fn unread(why: &mut Step) -> bool
    ensures is { why.new ≡ answers.Fault InvalidOperator }
    ensures made { result ≡ false }
{
    *why = Step::Fault(Fault::InvalidOperator);
    false
}

/// A couple whose highest six bits are in an operator's first syllable.
#[inline(always)]
fn couple(high: u8, low: u8) -> u16
    ensures { result ≡ high % 64 * 256 + low }
{
    u16::from(high % 64) * 256 + u16::from(low)
}

/// The place that a branch's two syllables name.
#[inline(always)]
fn target(high: u8, low: u8) -> Place
    ensures { result ≡ record { word = high % 32 * 256 + low; syllable = high / 32 } }
{
    Place {
        word: u16::from(high % 32) * 256 + u16::from(low),
        syllable: high / 32,
    }
}

/// A sum, a difference or a comparison.
#[inline(always)]
fn numbers(cpu: &mut Cpu, reader: &mut Reader, op: Numeric, why: &mut Step) -> bool
    requires runs { RunsSome cpu.old }
    requires stands { ReaderBehind cpu.old reader.old 0 }
    requires begins { form_of (reader.old.bits % 2 ^ 8) ≡ Some (Alone (code_of_numbers op)) }
    ensures { MadeNear cpu.old reader.old result cpu.new reader.new why.new }
{
    let next = after(cpu, *reader);
    let step = on_numbers(cpu, op, place(next));
    went_on(step, reader, next, why)
}

/// ZERO, ONE, PUSH, DLET, EXCH or DUPL, after which the task goes on at `next`.
#[inline(always)]
fn moves(cpu: &mut Cpu, code: Code, next: Place) -> Step
    requires runs { RunsSome cpu.old }
    requires moves { moves_cells code ≡ true }
    ensures { ForEach cpu.old (λ x plan s m t. Meets x plan s m result cpu.old cpu.new (plain_row code (here m t next))) }
{
    match code {
        Code::Zero => literal(cpu, 0, next),
        Code::One => literal(cpu, 1, next),
        Code::Push => branch_to(cpu, next),
        Code::Dlet => dlet(cpu, next),
        Code::Exch => exch(cpu, next),
        Code::Dupl => dupl(cpu, next),
        _ => unreachable!(),
    }
}

/// The same, at the reader.
#[inline(always)]
fn alone(cpu: &mut Cpu, reader: &mut Reader, code: Code, why: &mut Step) -> bool
    requires runs { RunsSome cpu.old }
    requires stands { ReaderBehind cpu.old reader.old 0 }
    requires begins { form_of (reader.old.bits % 2 ^ 8) ≡ Some (Alone code) }
    requires moves { moves_cells code ≡ true }
    ensures { MadeNear cpu.old reader.old result cpu.new reader.new why.new }
{
    let next = after(cpu, *reader);
    let step = moves(cpu, code, place(next));
    went_on(step, reader, next, why)
}

/// A couple as a reference.
#[inline(always)]
fn names(cpu: &mut Cpu, reader: &mut Reader, why: &mut Step) -> bool
    requires runs { RunsSome cpu.old }
    requires stands { ReaderBehind cpu.old reader.old 0 }
    requires begins { form_of (reader.old.bits % 2 ^ 8) ≡ Some (OneMore (λ low. ops.Namc (reader.old.bits % 2 ^ 8 % 64 * 256 + low))) }
    ensures { MadeNear cpu.old reader.old result cpu.new reader.new why.new }
{
    let second = match behind(cpu, *reader) {
        Some(second) => second,
        None => return unread(why),
    };
    let named = couple(first(*reader), first(second));
    let next = after(cpu, second);
    let step = namc(cpu, named, place(next));
    went_on(step, reader, next, why)
}

/// A literal of eight bits.
#[inline(always)]
fn literal_8(cpu: &mut Cpu, reader: &mut Reader, why: &mut Step) -> bool
    requires runs { RunsSome cpu.old }
    requires stands { ReaderBehind cpu.old reader.old 0 }
    requires begins { form_of (reader.old.bits % 2 ^ 8) ≡ Some (OneMore ops.Lt8) }
    ensures { MadeNear cpu.old reader.old result cpu.new reader.new why.new }
{
    let second = match behind(cpu, *reader) {
        Some(second) => second,
        None => return unread(why),
    };
    let bits = u64::from(first(second));
    let next = after(cpu, second);
    let step = literal(cpu, bits, place(next));
    went_on(step, reader, next, why)
}

/// A literal of sixteen bits.
#[inline(always)]
fn literal_16(cpu: &mut Cpu, reader: &mut Reader, why: &mut Step) -> bool
    requires runs { RunsSome cpu.old }
    requires stands { ReaderBehind cpu.old reader.old 0 }
    requires begins { form_of (reader.old.bits % 2 ^ 8) ≡ Some (TwoMore (λ high low. ops.Lt16 (high * 256 + low))) }
    ensures { MadeNear cpu.old reader.old result cpu.new reader.new why.new }
{
    let second = match behind(cpu, *reader) {
        Some(second) => second,
        None => return unread(why),
    };
    let third = match behind(cpu, second) {
        Some(third) => third,
        None => return unread(why),
    };
    let bits = u64::from(first(second)) * 256 + u64::from(first(third));
    let next = after(cpu, third);
    let step = literal(cpu, bits, place(next));
    went_on(step, reader, next, why)
}

/// Pushes a literal, or the word of a procedure, after which the task goes on at `next`.
#[inline(always)]
fn pushes_word(cpu: &mut Cpu, bits: u64, procedure: bool, next: Place) -> Step
    requires runs { RunsSome cpu.old }
    requires bits { bits < 2 ^ 48 }
    ensures { ForEach cpu.old (λ x plan s m t. Meets x plan s m result cpu.old cpu.new (row (word_op procedure bits) (here m t next))) }
{
    if procedure {
        mpcw(cpu, bits, next)
    } else {
        literal(cpu, bits, next)
    }
}

/// LT48 or MPCW: the next word of the code is a literal, or the word of a procedure.
#[inline(always)]
fn literal_word(cpu: &mut Cpu, reader: &mut Reader, procedure: bool, why: &mut Step) -> bool
    requires runs { RunsSome cpu.old }
    requires stands { ReaderBehind cpu.old reader.old 0 }
    requires begins { form_of (reader.old.bits % 2 ^ 8) ≡ Some (Literal (word_op procedure)) }
    ensures { MadeNear cpu.old reader.old result cpu.new reader.new why.new }
{
    let bits = match next_word(cpu, *reader) {
        Some(bits) => bits,
        None => return unread(why),
    };
    let next = at_word(cpu, reader.code, reader.word + 2);
    let step = pushes_word(cpu, bits, procedure, place(next));
    went_on(step, reader, next, why)
}

/// An operator that is read whole, or none, or a branch elsewhere.
#[inline(always)]
fn reads_whole(cpu: &mut Cpu, reader: Reader, why: &mut Step) -> Made
    requires runs { RunsSome cpu.old }
    requires stands { ReaderBehind cpu.old reader 0 }
    requires whole { BeginsWhole (form_of (reader.bits % 2 ^ 8)) }
    ensures { Makes cpu.old reader result cpu.new reader why.new }
{
    let _ = reader;
    if makes_whole(cpu, why) {
        Made::Away
    } else {
        Made::Not
    }
}

/// A branch that is always taken, also at the end of the code.
#[inline(always)]
fn jumps(cpu: &mut Cpu, reader: &mut Reader, why: &mut Step) -> Made
    requires runs { RunsSome cpu.old }
    requires stands { ReaderBehind cpu.old reader.old 0 }
    requires begins { form_of (reader.old.bits % 2 ^ 8) ≡ Some (branch (branch_op true true)) }
    ensures { Makes cpu.old reader.old result cpu.new reader.new why.new }
{
    let second = match behind(cpu, *reader) {
        Some(second) => second,
        None => return reads_whole(cpu, *reader, why),
    };
    let third = match behind(cpu, second) {
        Some(third) => third,
        None => return reads_whole(cpu, *reader, why),
    };
    let to = target(first(second), first(third));
    if to.syllable >= 6 || u32::from(to.word) >= reader.code.words {
        return reads_whole(cpu, *reader, why);
    }
    *reader = reader_to(cpu, reader.code, to);
    drop_cells(cpu, 0, to);
    Made::On
}

/// A branch that is taken where bit 0 of the top cell is as wanted, then also at the end of the code.
#[inline(always)]
fn branches(cpu: &mut Cpu, reader: &mut Reader, wanted: bool, why: &mut Step) -> Made
    requires runs { RunsSome cpu.old }
    requires stands { ReaderBehind cpu.old reader.old 0 }
    requires begins { form_of (reader.old.bits % 2 ^ 8) ≡ Some (branch (branch_op false wanted)) }
    ensures { Makes cpu.old reader.old result cpu.new reader.new why.new }
{
    let second = match behind(cpu, *reader) {
        Some(second) => second,
        None => return reads_whole(cpu, *reader, why),
    };
    let third = match behind(cpu, second) {
        Some(third) => third,
        None => return reads_whole(cpu, *reader, why),
    };
    let top = match top_cell(cpu) {
        Ok(top) => top,
        Err(_) => return reads_whole(cpu, *reader, why),
    };
    if top.tag() != 0 {
        return reads_whole(cpu, *reader, why);
    }
    if (top.bits() % 2 == 1) == wanted {
        let to = target(first(second), first(third));
        if to.syllable >= 6 || u32::from(to.word) >= reader.code.words {
            return reads_whole(cpu, *reader, why);
        }
        *reader = reader_to(cpu, reader.code, to);
        drop_cells(cpu, 1, to);
        return Made::On;
    }
    let next = after(cpu, third);
    drop_cells(cpu, 1, place(next));
    *reader = next;
    Made::On
}

/// An operator without parameters on the top cells.
#[inline(always)]
fn computes(cpu: &mut Cpu, reader: &mut Reader, code: Code, why: &mut Step) -> bool
    requires runs { RunsSome cpu.old }
    requires stands { ReaderBehind cpu.old reader.old 0 }
    requires begins { form_of (reader.old.bits % 2 ^ 8) ≡ Some (Alone code) }
    requires top { is_on_top code ≡ true }
    ensures { MadeNear cpu.old reader.old result cpu.new reader.new why.new }
{
    let next = after(cpu, *reader);
    if !makes_plain(cpu, code, place(next), why) {
        return false;
    }
    *reader = next;
    true
}

/// STFF, and whether it was made: the short way, and then the long one.
#[inline(always)]
fn makes_any_stff(cpu: &mut Cpu, next: Place, why: &mut Step) -> bool
    requires { RunsSome cpu.old }
    ensures { MadeOn (ops.Plain codes.Stff) next cpu.old result cpu.new why.new }
{
    if makes_stff(cpu, next) {
        return true;
    }
    makes_far_stff(cpu, next, why)
}

/// INDX, NXLV, MKST or STFF, and whether it was made.
#[inline(always)]
fn makes_behind(cpu: &mut Cpu, code: Code, next: Place, why: &mut Step) -> bool
    requires runs { RunsSome cpu.old }
    requires behind { goes_behind code ≡ true }
    ensures { MadeOn (ops.Plain code) next cpu.old result cpu.new why.new }
{
    match code {
        Code::Indx => makes_indx(cpu, next, why),
        Code::Nxlv => makes_nxlv(cpu, next, why),
        Code::Mkst => is_done(mkst(cpu, next), why),
        Code::Stff => makes_any_stff(cpu, next, why),
        _ => unreachable!(),
    }
}

/// INDX, NXLV, MKST or STFF.
#[inline(always)]
fn stays(cpu: &mut Cpu, reader: &mut Reader, code: Code, why: &mut Step) -> bool
    requires runs { RunsSome cpu.old }
    requires stands { ReaderBehind cpu.old reader.old 0 }
    requires begins { form_of (reader.old.bits % 2 ^ 8) ≡ Some (Alone code) }
    requires behind { goes_behind code ≡ true }
    ensures { MadeNear cpu.old reader.old result cpu.new reader.new why.new }
{
    let next = after(cpu, *reader);
    if !makes_behind(cpu, code, place(next), why) {
        return false;
    }
    *reader = next;
    true
}

/// Where an operator leads that was made. Where its task goes on behind it the reader does too.
#[inline(always)]
fn goes(went: Went, reader: &mut Reader, next: Reader) -> Made
    ensures { LeadsTo went reader.old next result reader.new }
{
    match went {
        Went::On => {
            *reader = next;
            Made::On
        }
        Went::Away => Made::Away,
        Went::Not => Made::Not,
    }
}

/// VALC, and what became of it: the short way, and then the long one.
#[inline(always)]
fn makes_any_valc(cpu: &mut Cpu, couple: u16, next: Place, why: &mut Step) -> Went
    requires runs { RunsSome cpu.old }
    requires couple { couple < 2 ^ 14 }
    requires next { IsPlace next }
    ensures { MadeWent (ops.Valc couple) next cpu.old result cpu.new why.new }
{
    match evaluates_own(cpu, couple, next) {
        Went::On => Went::On,
        Went::Away => Went::Away,
        Went::Not => makes_far_valc(cpu, couple, next, why),
    }
}

/// VALC.
#[inline(always)]
fn evaluates(cpu: &mut Cpu, reader: &mut Reader, why: &mut Step) -> Made
    requires runs { RunsSome cpu.old }
    requires stands { ReaderBehind cpu.old reader.old 0 }
    requires begins { form_of (reader.old.bits % 2 ^ 8) ≡ Some (OneMore (λ low. ops.Valc (reader.old.bits % 2 ^ 8 % 64 * 256 + low))) }
    ensures { Makes cpu.old reader.old result cpu.new reader.new why.new }
{
    let second = match behind(cpu, *reader) {
        Some(second) => second,
        None => return on(unread(why)),
    };
    let named = couple(first(*reader), first(second));
    let next = after(cpu, second);
    let went = makes_any_valc(cpu, named, place(next), why);
    goes(went, reader, next)
}

/// LOAD.
#[inline(always)]
fn loads(cpu: &mut Cpu, reader: &mut Reader, why: &mut Step) -> Made
    requires runs { RunsSome cpu.old }
    requires stands { ReaderBehind cpu.old reader.old 0 }
    requires begins { form_of (reader.old.bits % 2 ^ 8) ≡ Some (Alone codes.Load) }
    ensures { Makes cpu.old reader.old result cpu.new reader.new why.new }
{
    let next = after(cpu, *reader);
    if loads_own(cpu, place(next)) {
        *reader = next;
        return Made::On;
    }
    let went = makes_load(cpu, place(next), why);
    goes(went, reader, next)
}

/// STOD, or STON, which keeps the operand.
#[inline(always)]
fn stores(cpu: &mut Cpu, reader: &mut Reader, keeps: bool, why: &mut Step) -> Made
    requires runs { RunsSome cpu.old }
    requires stands { ReaderBehind cpu.old reader.old 0 }
    requires begins { form_of (reader.old.bits % 2 ^ 8) ≡ Some (Alone (store_code keeps)) }
    ensures { Makes cpu.old reader.old result cpu.new reader.new why.new }
{
    let next = after(cpu, *reader);
    let near = match store_near(cpu, keeps, place(next)) {
        Ok(()) => {
            *reader = next;
            return Made::On;
        }
        Err(near) => near,
    };
    if near != 0 {
        let went = makes_store_from(cpu, keeps, near, place(next), why);
        return goes(went, reader, next);
    }
    let went = makes_store(cpu, keeps, place(next), why);
    goes(went, reader, next)
}

/// ENTR.
#[inline(always)]
fn enters(cpu: &mut Cpu, reader: Reader, why: &mut Step) -> Made
    requires runs { RunsSome cpu.old }
    requires stands { ReaderBehind cpu.old reader 0 }
    requires begins { form_of (reader.bits % 2 ^ 8) ≡ Some (Alone codes.Entr) }
    ensures { Makes cpu.old reader result cpu.new reader why.new }
{
    let next = after(cpu, reader);
    if makes_entr(cpu, place(next), why) {
        Made::Away
    } else {
        Made::Not
    }
}

/// EXIT, and whether it was made.
#[inline(always)]
fn makes_any_exit(cpu: &mut Cpu, why: &mut Step) -> bool
    requires { RunsSome cpu.old }
    ensures { MadeLeaving (ops.Plain codes.Exit) cpu.old result cpu.new why.new }
{
    if makes_exit(cpu) {
        return true;
    }
    makes_last_exit(cpu, why)
}

/// RETN, and whether it was made.
#[inline(always)]
fn makes_any_retn(cpu: &mut Cpu, why: &mut Step) -> bool
    requires { RunsSome cpu.old }
    ensures { MadeLeaving (ops.Plain codes.Retn) cpu.old result cpu.new why.new }
{
    if makes_retn(cpu) {
        return true;
    }
    makes_last_retn(cpu, why)
}

/// EXIT or RETN, and whether it was made.
#[inline(always)]
fn makes_leaving(cpu: &mut Cpu, code: Code, why: &mut Step) -> bool
    requires runs { RunsSome cpu.old }
    requires leaves { is_leaving (ops.Plain code) ≡ true }
    ensures { MadeLeaving (ops.Plain code) cpu.old result cpu.new why.new }
{
    match code {
        Code::Exit => makes_any_exit(cpu, why),
        Code::Retn => makes_any_retn(cpu, why),
        _ => unreachable!(),
    }
}

/// EXIT or RETN.
#[inline(always)]
fn exits(cpu: &mut Cpu, code: Code, why: &mut Step) -> Made
    requires runs { RunsSome cpu.old }
    requires leaves { is_leaving (ops.Plain code) ≡ true }
    ensures { LeavesBy (ops.Plain code) cpu.old result cpu.new why.new }
{
    let upto = cpu.regs.s + 1;
    if makes_leaving(cpu, code, why) {
        Made::Left(upto)
    } else {
        Made::Not
    }
}

/// An operator after which its task goes on in the segment.
#[inline(always)]
fn on(made: bool) -> Made
    ensures { result ≡ outcome_of made }
{
    if made { Made::On } else { Made::Not }
}

/// Executes the operator at the running place, at which the reader stands. Where the task goes on in the segment, the reader then
/// stands at the new place. At `Not` nothing is changed, and `why` is the reason.
#[inline(always)]
pub fn operate(cpu: &mut Cpu, reader: &mut Reader, why: &mut Step) -> Made
    requires runs { RunsSome cpu.old }
    requires stands { ReaderBehind cpu.old reader.old 0 }
    ensures { Makes cpu.old reader.old result cpu.new reader.new why.new }
{
    match near_of(first(*reader)) {
        Near::Other => reads_whole(cpu, *reader, why),
        Near::Far(code) => on(computes(cpu, reader, code, why)),
        Near::Valc => evaluates(cpu, reader, why),
        Near::Namc => on(names(cpu, reader, why)),
        Near::Lt8 => on(literal_8(cpu, reader, why)),
        Near::Lt16 => on(literal_16(cpu, reader, why)),
        Near::Lt48 => on(literal_word(cpu, reader, false, why)),
        Near::Mpcw => on(literal_word(cpu, reader, true, why)),
        Near::Zero => on(alone(cpu, reader, Code::Zero, why)),
        Near::One => on(alone(cpu, reader, Code::One, why)),
        Near::Add => on(numbers(cpu, reader, Numeric::Add, why)),
        Near::Subt => on(numbers(cpu, reader, Numeric::Subt, why)),
        Near::Less => on(numbers(cpu, reader, Numeric::Less, why)),
        Near::Greq => on(numbers(cpu, reader, Numeric::Greq, why)),
        Near::Grtr => on(numbers(cpu, reader, Numeric::Grtr, why)),
        Near::Lseq => on(numbers(cpu, reader, Numeric::Lseq, why)),
        Near::Equl => on(numbers(cpu, reader, Numeric::Equl, why)),
        Near::Neql => on(numbers(cpu, reader, Numeric::Neql, why)),
        Near::Push => on(alone(cpu, reader, Code::Push, why)),
        Near::Dlet => on(alone(cpu, reader, Code::Dlet, why)),
        Near::Exch => on(alone(cpu, reader, Code::Exch, why)),
        Near::Dupl => on(alone(cpu, reader, Code::Dupl, why)),
        Near::Brfl => branches(cpu, reader, false, why),
        Near::Brtr => branches(cpu, reader, true, why),
        Near::Brun => jumps(cpu, reader, why),
        Near::Indx => on(stays(cpu, reader, Code::Indx, why)),
        Near::Nxlv => on(stays(cpu, reader, Code::Nxlv, why)),
        Near::Mkst => on(stays(cpu, reader, Code::Mkst, why)),
        Near::Stff => on(stays(cpu, reader, Code::Stff, why)),
        Near::Stod => stores(cpu, reader, false, why),
        Near::Ston => stores(cpu, reader, true, why),
        Near::Load => loads(cpu, reader, why),
        Near::Entr => enters(cpu, *reader, why),
        Near::Exit => exits(cpu, Code::Exit, why),
        Near::Retn => exits(cpu, Code::Retn, why),
    }
}
