//! The lines of a dump, without their ends.

ghost use Rattle.std.specs.Prelude.{◌≡◌, ℕ, true, ◌+◌, ◌-◌, ◌<◌, ◌≤◌, ◌^◌, ◌++◌, ◌∷◌, [], codes, decimal, length};
ghost use Rattle.b67_word.specs.Tagged.{bits_at};
ghost use Rattle.b67_model.specs.Lines.{task_name};
ghost use Rattle.b67_model_text.specs.Hex.{hex_char};
ghost use Rattle.b67_stack.specs.Shapes.{Is};
ghost use Rattle.b67_layout.specs.Rows as layout;
ghost use Rattle.b67_task.specs.Tables.{job_row, state_of};
ghost use Rattle.b67_layout_shown.specs.Reading.{word_seen_at, is_set, desc_in, descriptor_by, home_by, shape_in};
ghost use Rattle.b67_layout_shown.specs.Shown.{place_seen, reference_by};
ghost use Rattle.b67_layout_shown.specs.Machines.{sight_of};
ghost use Rattle.b67_dump.specs.Dump.{beside, hex_number, place_text};
ghost use Rattle.b67_dump.specs.Records.{activation_in};
ghost use Rattle.b67_dump.specs.Landmarks.{AreLandmarks};
ghost use Rattle.b67_dump.specs.Walk.{array_at_home, record_at, head_text, number_of_place, shape_text, state_text, word_text};

use crate::landmarks::{Landmark, number_at, owner_in};
use crate::walking::{disp_over, number_in_slot, slot_over};
use b67_core::Core;
use b67_ctl::{DICTIONARY_STACKS, MCP_STACK, SLOTS};
use b67_io::Line;
use b67_layout_shown::seeing::{TaskTop, slot_start, word_seen_at};
use b67_session_lines::{line_of, with_number, with_text};
use b67_task::{JobRow, Machine, TaskRow, TaskState};
use b67_word::{Place, Word};

/// Appends a task's name.
fn with_task(line: Line, job: u64, number: u32) -> Line
    requires { length line ≤ 151 }
    ensures text { result ≡ line ++ task_name job number }
    ensures short { length result ≤ length line + 31 }
{
    let line = with_text(with_number(line, job), ".");
    with_number(line, u64::from(number))
}

/// A hexadecimal digit.
fn digit_text(digit: u64) -> &'static str
    requires { digit < 16 }
    ensures { result.now ≡ hex_char digit ∷ [] }
{
    match digit {
        0 => "0",
        1 => "1",
        2 => "2",
        3 => "3",
        4 => "4",
        5 => "5",
        6 => "6",
        7 => "7",
        8 => "8",
        9 => "9",
        10 => "a",
        11 => "b",
        12 => "c",
        13 => "d",
        14 => "e",
        _ => "f",
    }
}

/// Appends so many hexadecimal digits of a number.
fn with_hex(line: Line, digits: u32, n: u64) -> Line
    requires { length line + digits ≤ 192 }
    ensures text { result ≡ line ++ hex_number digits n }
    ensures length { length result ≡ length line + digits }
{
    if digits == 0 {
        return line;
    }
    with_text(with_hex(line, digits - 1, n / 16), digit_text(n % 16))
}

/// Appends a place of code.
fn with_place(line: Line, place: Place) -> Line
    requires { length line ≤ 151 }
    ensures text { result ≡ line ++ place_text place }
    ensures short { length result ≤ length line + 41 }
{
    let line = with_text(with_number(line, u64::from(place.word)), ":");
    with_number(line, u64::from(place.syllable))
}

/// Appends the name of the activation record whose mark stands at a place, seen from a job.
fn with_record(
    line: Line,
    machine: &Machine,
    landmarks: &[Landmark],
    job: u64,
    stack: u64,
    disp: u64,
) -> Line
    requires known { AreLandmarks (sight_of machine.now) landmarks.now }
    requires near { job < 2 ^ 63 }
    requires small { disp < 2 ^ 32 }
    requires room { length line ≤ 110 }
    ensures text { result ≡ line ++ record_at (sight_of machine.now) job (record { stack = stack; disp = disp }) }
    ensures short { length result ≤ length line + 52 }
{
    if stack < SLOTS as u64 {
        let number = number_in_slot(machine.tasks.rows.as_slice(), stack);
        let mark = slot_start(machine.cpu.regs, stack) + disp;
        let marks = number_at(machine, landmarks, stack, mark);
        return with_number(
            with_text(with_task(line, job, number), " "),
            u64::from(marks),
        );
    }
    if stack == DICTIONARY_STACKS as u64 + job {
        with_number(with_text(line, "DICT "), job)
    } else {
        with_text(line, "MCP")
    }
}

/// Appends the name of the array whose original stands at an address.
fn with_array(
    line: Line,
    machine: &Machine,
    landmarks: &[Landmark],
    row: &JobRow,
    job: u64,
    home: u32,
) -> Line
    requires known { AreLandmarks (sight_of machine.now) landmarks.now }
    requires room { length line ≤ 90 }
    ensures text { result ≡ line ++ array_at_home (sight_of machine.now) (job_row row.now) job home }
    ensures short { length result ≤ length line + 73 }
{
    let stacks = machine.cpu.regs.stacks;
    if home < stacks {
        let line = with_text(with_number(with_text(line, "DICT "), job), " ");
        return with_number(line, u64::from(home.saturating_sub(row.dict)));
    }
    let slot = u64::from(slot_over(machine, home - stacks));
    let owner = owner_in(machine, landmarks, slot, home);
    let number = number_in_slot(machine.tasks.rows.as_slice(), slot);
    let line = with_text(with_task(line, job, number), " ");
    let line = with_text(with_number(line, u64::from(owner.number)), " ");
    with_number(line, owner.offset)
}

/// The address of the original that a copied descriptor names.
fn home_named(core: &Core, w: Word) -> u32
    ensures { result ≡ home_by core.now (bits_at w 0 20) (is_set w 47) }
{
    let address = w.part(0, 20);
    if w.part(47, 1) == 1 {
        word_seen_at(core, address.saturating_sub(1)).part(0, 20) as u32
    } else {
        address as u32
    }
}

/// Appends what a copied descriptor names.
fn with_copy(
    line: Line,
    machine: &Machine,
    landmarks: &[Landmark],
    row: &JobRow,
    job: u64,
    w: Word,
) -> Line
    requires known { AreLandmarks (sight_of machine.now) landmarks.now }
    requires room { length line ≤ 60 }
    ensures { result ≡ line ++ shape_text (sight_of machine.now) (job_row row.now) job (descriptor_by machine.now.cpu.core 0 (desc_in w) true) }
{
    let home = home_named(&machine.cpu.core, w);
    if w.part(45, 1) == 1 {
        let line = with_array(
            with_text(line, "ELEMENT "),
            machine,
            landmarks,
            row,
            job,
            home,
        );
        with_number(with_text(line, " "), w.part(20, 20))
    } else {
        with_array(with_text(line, "ROW "), machine, landmarks, row, job, home)
    }
}

/// Appends a reference, or a couple that isn't one yet.
fn with_reference(line: Line, machine: &Machine, landmarks: &[Landmark], job: u64, w: Word) -> Line
    requires known { AreLandmarks (sight_of machine.now) landmarks.now }
    requires near { job < 2 ^ 63 }
    requires room { length line ≤ 60 }
    ensures { (row : layout.JobRow) → result ≡ line ++ word_text (sight_of machine.now) row job (reference_by w number_of_place (is_set w 46)) }
{
    if w.part(46, 1) == 1 {
        let line = with_text(line, "REF ");
        let line = with_record(
            line,
            machine,
            landmarks,
            job,
            w.part(36, 10),
            w.part(20, 16),
        );
        with_number(with_text(line, " "), w.part(0, 13))
    } else {
        with_hex(with_text(line, "NAME "), 4, w.part(0, 14))
    }
}

/// Appends a procedure.
fn with_procedure(line: Line, w: Word) -> Line
    requires { length line ≤ 60 }
    ensures { result ≡ line ++ beside (codes "PROC") (beside (decimal (bits_at w 0 14 - 1))
        (beside (place_text (record { word = bits_at w 20 13; syllable = bits_at w 33 3 })) (decimal (bits_at w 14 5)))) }
{
    let place = Place {
        word: w.part(20, 13) as u16,
        syllable: w.part(33, 3) as u8,
    };
    let line = with_number(with_text(line, "PROC "), w.part(0, 14).saturating_sub(1));
    let line = with_place(with_text(line, " "), place);
    with_number(with_text(line, " "), w.part(14, 5))
}

/// Appends what a word is that is no descriptor.
fn with_plain(line: Line, machine: &Machine, landmarks: &[Landmark], job: u64, w: Word) -> Line
    requires known { AreLandmarks (sight_of machine.now) landmarks.now }
    requires near { job < 2 ^ 63 }
    requires room { length line ≤ 60 }
    ensures { (row : layout.JobRow) → result ≡ line ++ shape_text (sight_of machine.now) row job (Is w) }
{
    let tag = w.tag();
    if tag == 0 {
        return with_hex(with_text(line, "NUM "), 12, w.bits());
    }
    if tag == 1 {
        return with_reference(line, machine, landmarks, job, w);
    }
    if tag == 7 {
        return with_procedure(line, w);
    }
    line
}

/// Appends what the cell at an address holds.
fn with_cell(
    line: Line,
    machine: &Machine,
    landmarks: &[Landmark],
    row: &JobRow,
    job: u64,
    at: u64,
) -> Line
    requires known { AreLandmarks (sight_of machine.now) landmarks.now }
    requires near { job < 2 ^ 63 }
    requires room { length line ≤ 60 }
    ensures { result ≡ line ++ shape_text (sight_of machine.now) (job_row row.now) job (shape_in machine.now.cpu.core at (word_seen_at machine.now.cpu.core at)) }
{
    let w = word_seen_at(&machine.cpu.core, at);
    if w.tag() != 5 {
        return with_plain(line, machine, landmarks, job, w);
    }
    if w.part(46, 1) == 1 {
        with_copy(line, machine, landmarks, row, job, w)
    } else {
        with_number(with_text(line, "ARRAY "), w.part(20, 20))
    }
}

/// The line of a cell.
pub fn cell_line(
    machine: &Machine,
    landmarks: &[Landmark],
    row: &JobRow,
    job: u64,
    offset: u64,
    at: u64,
) -> Line
    requires known { AreLandmarks (sight_of machine.now) landmarks.now }
    requires near { job < 2 ^ 63 }
    ensures { result ≡ beside (codes "CELL") (beside (decimal offset)
        (shape_text (sight_of machine.now) (job_row row.now) job (shape_in machine.now.cpu.core at (word_seen_at machine.now.cpu.core at)))) }
{
    let line = with_text(with_number(line_of("CELL "), offset), " ");
    with_cell(line, machine, landmarks, row, job, at)
}

/// The line of an activation record, by its mark.
pub fn frame_line(
    machine: &Machine,
    landmarks: &[Landmark],
    job: u64,
    number: u64,
    mark: u64,
) -> Line
    requires known { AreLandmarks (sight_of machine.now) landmarks.now }
    requires near { job < 2 ^ 63 }
    ensures { (top : ℕ) → result ≡ beside (codes "FRAME") (beside (decimal number)
        (head_text (sight_of machine.now) job (activation_in machine.now.cpu.core mark top).head)) }
{
    let w = word_seen_at(&machine.cpu.core, mark);
    let line = with_text(with_number(line_of("FRAME "), number), " ");
    if w.part(46, 1) == 1 {
        let line = with_number(with_text(line, "LEVEL "), w.part(14, 5));
        with_record(
            with_text(line, " ENV "),
            machine,
            landmarks,
            job,
            w.part(36, 10),
            w.part(20, 16),
        )
    } else {
        with_text(line, "MARKED")
    }
}

/// Appends the activation record whose mark has an address.
fn with_waited(
    line: Line,
    machine: &Machine,
    landmarks: &[Landmark],
    row: &JobRow,
    job: u64,
    mark: u32,
) -> Line
    requires known { AreLandmarks (sight_of machine.now) landmarks.now }
    requires near { job < 2 ^ 63 }
    requires room { length line ≤ 110 }
    ensures text { result ≡ line ++ record_at (sight_of machine.now) job (place_seen machine.now.cpu.regs (job_row row.now) job mark) }
    ensures short { length result ≤ length line + 52 }
{
    let stacks = machine.cpu.regs.stacks;
    if mark >= stacks {
        let slot = slot_over(machine, mark - stacks);
        let disp = disp_over(machine, mark - stacks);
        return with_record(
            line,
            machine,
            landmarks,
            job,
            u64::from(slot),
            u64::from(disp),
        );
    }
    if mark == row.dict {
        return with_record(
            line,
            machine,
            landmarks,
            job,
            DICTIONARY_STACKS as u64 + job,
            0,
        );
    }
    with_record(line, machine, landmarks, job, MCP_STACK as u64, 0)
}

/// Appends whether a task may go on.
fn with_state(
    line: Line,
    machine: &Machine,
    landmarks: &[Landmark],
    row: &JobRow,
    job: u64,
    state: TaskState,
) -> Line
    requires known { AreLandmarks (sight_of machine.now) landmarks.now }
    requires near { job < 2 ^ 63 }
    requires room { length line ≤ 60 }
    ensures text { result ≡ line ++ state_text (sight_of machine.now) (job_row row.now) job (state_of state) }
    ensures short { length result ≤ length line + 79 }
{
    match state {
        TaskState::Ready => with_text(line, "READY"),
        TaskState::Awaits(number) => with_number(with_text(line, "AWAITS "), u64::from(number)),
        TaskState::WaitsAt { mark, offset } => {
            let line = with_waited(
                with_text(line, "WAITS "),
                machine,
                landmarks,
                row,
                job,
                mark,
            );
            with_number(with_text(line, " "), u64::from(offset))
        }
    }
}

/// The line of a task.
pub fn task_line(
    machine: &Machine,
    landmarks: &[Landmark],
    row: &JobRow,
    job: u64,
    task: TaskRow,
    top: TaskTop,
) -> Line
    requires known { AreLandmarks (sight_of machine.now) landmarks.now }
    requires near { job < 2 ^ 63 }
    ensures { result ≡ beside (codes "TASK") (beside (task_name job task.number) (beside (state_text (sight_of machine.now) (job_row row.now) job (state_of task.state))
        (beside (decimal (top.segment - 1)) (place_text top.place)))) }
{
    let line = with_task(line_of("TASK "), job, task.number);
    let line = with_state(
        with_text(line, " "),
        machine,
        landmarks,
        row,
        job,
        task.state,
    );
    let segment = u64::from(top.segment.saturating_sub(1));
    let line = with_number(with_text(line, " "), segment);
    with_place(with_text(line, " "), top.place)
}
