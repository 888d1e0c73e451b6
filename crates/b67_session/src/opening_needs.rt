//! The core words and the sectors that programs take when their session opens.

ghost use Rattle.std.specs.Prelude.{◌≡◌, ℕ, ◌+◌, ◌*◌, ◌≤◌, List, length, map};
ghost use Rattle.std.specs.List.{AllByRecursion};
ghost use Rattle.b67_word.specs.Tagged.{contents};
ghost use Rattle.b67_backing.specs.Held.{sectors_for};
ghost use Rattle.b67_codefile.specs.Spelling.{IsFileSegment, IsRow};
ghost use Rattle.b67_codefile.specs.Meaning.{segment_of, program_of};
ghost use Rattle.b67_lemmas.specs.Lists.{total};
ghost use Rattle.b67_model.specs.State.{Segment as ModelSegment};
ghost use Rattle.b67_model.specs.Need.{need_at_opening};
ghost use Rattle.b67_model.specs.Sectors.{sectors};
ghost use Rattle.b67_law.specs.Opening.{Opening, opened_from};
ghost use Rattle.b67_load.specs.Objects.{sectors_of_program};
ghost use Rattle.b67_session.specs.Opened.{dictionaries, programs_of};
ghost use Rattle.b67_model.specs.declared.limits.TheConstants.{MOST_JOBS, MOST_PARTS};

use crate::dictionaries::dictionary_words;
use b67_backing::sectors_needed;
use b67_codefile::Segment;
use b67_ctl::FIRST_DICTIONARY;
use b67_load::Admitted;
use b67_word::Words;

/// The core words that a session of these programs needs to open, with stacks of `stack` words: those of the MCP, all
/// dictionaries, and one stack for each program.
pub fn opening_need(stack: u16, programs: &[Admitted]) -> u32
    requires few { length programs.now ≤ MOST_JOBS }
    ensures value { result ≡ FIRST_DICTIONARY + dictionaries (map program_of programs.now) + length programs.now * stack }
    ensures need { (openings : List Opening) → programs_of openings ≡ map program_of programs.now
        → result ≡ need_at_opening stack (opened_from 1 stack openings) }
{
    let mut words = FIRST_DICTIONARY;
    'programs: for program in programs {
        words += dictionary_words(program);
    }
    words + programs.len() as u32 * u32::from(stack)
}

/// The sectors of segments.
fn sectors_of_segments(segments: &[Segment]) -> u32
    requires within { AllByRecursion IsFileSegment segments.now }
    requires few { length segments.now ≤ MOST_PARTS }
    ensures value { result ≡ total (λ (s : ModelSegment). sectors_for (length s.code)) (map segment_of segments.now) }
    ensures few { result ≤ length segments.now * 2185 }
{
    let mut sectors = 0;
    'segments: for segment in segments {
        sectors += sectors_needed(segment.code.as_slice().len() as u32);
    }
    sectors
}

/// The sectors of data rows.
fn sectors_of_rows(rows: &[Words]) -> u32
    requires within { AllByRecursion IsRow rows.now }
    requires few { length rows.now ≤ MOST_PARTS }
    ensures value { result ≡ total (λ (r : List ℕ). sectors_for (length r)) (map contents rows.now) }
    ensures few { result ≤ length rows.now * 2185 }
{
    let mut sectors = 0;
    'rows: for row in rows {
        sectors += sectors_needed(row.as_slice().len() as u32);
    }
    sectors
}

/// How many sectors the segments and data rows of a program take on the device.
fn sectors_of(program: &Admitted) -> u32
    ensures value { result ≡ sectors_of_program (program_of program.now) }
    ensures few { result ≤ 557175 }
{
    let file = program.file();
    sectors_of_segments(file.segments.as_slice()) + sectors_of_rows(file.rows.as_slice())
}

/// The sectors that the segments and data rows of these programs take.
pub fn opening_sectors(programs: &[Admitted]) -> u32
    requires few { length programs.now ≤ MOST_JOBS }
    ensures value { result ≡ total sectors_of_program (map program_of programs.now) }
    ensures sum { (stack : ℕ) (openings : List Opening) → programs_of openings ≡ map program_of programs.now
        → result ≡ sectors (opened_from 1 stack openings) }
{
    let mut sum = 0;
    'programs: for program in programs {
        sum += sectors_of(program);
    }
    sum
}
