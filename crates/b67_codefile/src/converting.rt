//! The same program in the second version.

ghost use Rattle.std.specs.Prelude.{◌≡◌, IfOk};
ghost use Rattle.b67_codefile.specs.Spelling.{IsWithin};

use crate::copying::{copy_of_rows, copy_of_segments};
use crate::file::Codefile;
use std::alloc::{AllocError, Global};

/// The file of version 2 with the same segments and rows. Fails only when memory runs out.
pub fn convert(alloc: Global, file: &Codefile) -> Result<Codefile, AllocError>
    ensures same { IfOk result (λ copy. copy ≡ record file.now { version = 2 }) }
    ensures within { IsWithin file.now → IfOk result (λ copy. IsWithin copy) }
{
    let segments = copy_of_segments(alloc, file.segments.as_slice())?;
    let rows = copy_of_rows(alloc, file.rows.as_slice())?;
    Ok(Codefile {
        version: 2,
        segments,
        rows,
    })
}
