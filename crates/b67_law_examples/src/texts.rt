//! The bytes of lines.

ghost use Rattle.std.specs.Prelude.{◌≡◌, codes};
ghost use Rattle.b67_model.specs.Run.{lines};
ghost use Rattle.b67_model.specs.Lines.{run_text};
ghost use Rattle.b67_law_examples.specs.Sessions.{job_alone};
ghost use Rattle.b67_law_examples.specs.Programs.{printed_row, sum};

/// The text of a run is one line for each value and ending.
pub fn text_of_a_sum()
    ensures { run_text (lines 20 (job_alone sum)) ≡ codes "1.1 5\n1.1 ENDED\n" }
{}

/// The text of a PRINTROW has ten values to a line.
pub fn text_of_a_row()
    ensures { run_text (lines 40 (job_alone printed_row)) ≡ codes "1.1 0 0 0 0 0 0 0 0 0 0\n1.1 5 0\n1.1 ENDED\n" }
{}
