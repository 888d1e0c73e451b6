//! Admitted programs.

ghost use Rattle.std.specs.Prelude.{◌≡◌};
ghost use Rattle.b67_model.specs.Loader.{IsAdmitted};
ghost use Rattle.b67_codefile.specs.Spelling.{IsWithin};
ghost use Rattle.b67_codefile.specs.Meaning.{program_of};

use b67_codefile::Codefile;
use std::marker::Model;

/// A file that is within the limits and breaks none of the loader's rules. Contracts see the file.
#[derive(Drop)]
pub struct Admitted {
    file: Codefile,
}

impl Model for Admitted {
    ghost use Rattle.b67_model.specs.Loader.{IsAdmitted};
    ghost use Rattle.b67_codefile.specs.Spelling.{IsWithin};
    ghost use Rattle.b67_codefile.specs.Meaning.{program_of};
    ghost use Rattle.b67_codefile.specs.declared.file.Codefile.{Codefile};

    ghost Value = { Codefile };

    ghost view = { λ a. a.file };

    ghost invariant = { λ a. IsWithin a.file × IsAdmitted (program_of a.file) };
}

impl Admitted {
    pub(crate) fn new(file: Codefile) -> Admitted
        requires within { IsWithin file }
        requires admitted { IsAdmitted (program_of file) }
        ensures { result ≡ file }
    {
        Admitted { file }
    }

    /// The file.
    pub fn file(&self) -> &Codefile
        ensures same { result.now ≡ self.now }
        ensures within { IsWithin self.now }
        ensures admitted { IsAdmitted (program_of self.now) }
    {
        &self.file
    }
}
