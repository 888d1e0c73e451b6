//! The bytes of a text, read into memory.

ghost use Rattle.std.specs.Prelude.{◌≤◌, ◌<◌, ◌^◌};
ghost use Rattle.b67_program.specs.Input.{IsInputUpTo};

use b67_io::Source;
use b67_word::Bytes;
use std::alloc::Global;

/// How many bytes are asked for at once.
pub(crate) const PIECE: usize = 4096;

/// Why the bytes of a source aren't in memory.
#[derive(Clone, Copy, Debug, PartialEq, Eq)]
pub enum InputFault {
    /// A read failed.
    SourceFault,
    /// Memory was refused.
    Memory,
}

/// Reads a source into memory: to its end, or up to the first byte past a limit. The first read that fails ends it.
pub fn read_input<S: Source>(
    alloc: Global,
    source: &mut S,
    limit: usize,
) -> Result<Bytes, InputFault>
    requires { limit < 2 ^ 31 }
    ensures answer { IsInputUpTo limit S.left S.faults source.old source.new result }
    ensures later { S.faults source.old ≤ S.faults source.new }
{
    let mut bytes = Bytes::new(alloc);
    let mut piece = [0u8; PIECE];
    'read: while bytes.as_slice().len() <= limit {
        let room = PIECE.min(limit + 1 - bytes.as_slice().len());
        match source.read(&mut piece[..room]) {
            Ok(0) => return Ok(bytes),
            Ok(count) => match bytes.extend(&piece[..count]) {
                Ok(()) => {}
                Err(_) => return Err(InputFault::Memory),
            },
            Err(_) => return Err(InputFault::SourceFault),
        }
    }
    Ok(bytes)
}
