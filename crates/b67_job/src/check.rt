//! The command `check`.

ghost use Rattle.std.specs.Prelude.{◌≡◌, ◌≤◌, ◌++◌, OnOk, IfOk, map, decimal};
ghost use Rattle.b67_io.specs.Line.{ended};
ghost use Rattle.b67_codefile.specs.Meaning.{program_of};
ghost use Rattle.b67_job.specs.Verdicts.{job_line, job_lines, check_verdict};
ghost use Rattle.b67_job.specs.CommandMeets.{IsJudged};

use crate::admission::admit;
use crate::admit_fault::AdmitFault;
use b67_codefile::Codefile;
use b67_io::Source;
use b67_load::Admitted;
use b67_model_text::Job;
use b67_word::Bytes;
use itoa::Buffer;
use std::alloc::{AllocError, Global};

fn put_number(n: usize, into: &mut Bytes) -> Result<(), AllocError>
    ensures { OnOk result (into.new ≡ into.old ++ decimal n) }
{
    let mut buffer = Buffer::new();
    into.extend(buffer.format(n as u64).as_bytes())?;
    Ok(())
}

fn put_job(job: &Job, file: &Codefile, into: &mut Bytes) -> Result<(), AllocError>
    ensures { OnOk result (into.new ≡ into.old ++ ended (job_line job.now (program_of file.now))) }
{
    into.extend(job.name.as_str().as_bytes())?;
    into.extend(b" ADMITTED ")?;
    put_number(file.segments.as_slice().len(), into)?;
    into.extend(b" ")?;
    put_number(file.rows.as_slice().len(), into)?;
    into.push(b'\n')?;
    Ok(())
}

fn text_of(alloc: Global, jobs: &[Job], programs: &[Admitted]) -> Result<Bytes, AllocError>
    ensures { IfOk result (λ text. text ≡ job_lines jobs.now (map program_of programs.now)) }
{
    let mut text = Bytes::new(alloc);
    let mut jobs = jobs;
    let mut programs = programs;
    'job: while let [job, more_jobs @ ..] = jobs {
        let [program, more_programs @ ..] = programs else {
            return Ok(text);
        };
        put_job(job, program.file(), &mut text)?;
        jobs = more_jobs;
        programs = more_programs;
    }
    Ok(text)
}

/// What `check` prints of a deck, read to its end: a line for each job, once the last one is admitted, or the first refusal.
/// All memory is taken here, before anything is printed.
pub fn check_text<S: Source>(alloc: Global, source: &mut S) -> Result<Bytes, AdmitFault>
    ensures answer { IsJudged S.left S.faults source.old source.new check_verdict result }
    ensures later { S.faults source.old ≤ S.faults source.new }
{
    match admit(alloc, source) {
        Ok(loaded) => {
            match text_of(
                alloc,
                loaded.deck.jobs.as_slice(),
                loaded.programs.as_slice(),
            ) {
                Ok(text) => Ok(text),
                Err(_) => Err(AdmitFault::Memory),
            }
        }
        Err(fault) => Err(fault),
    }
}
