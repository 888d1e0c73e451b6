//! The words of a program.

ghost use Rattle.std.specs.Prelude.{List, ℕ, Option, None, IfOk, map, string_bytes};
ghost use Rattle.b67_program.specs.Words.{TellsWords};

use std::alloc::{AllocError, Global};
use std::env;
use std::io::ErrorKind;

/// What a program has its words from.
pub trait Words {
    /// The words without the program's own name, if it tells them.
    ghost given: { Self → Option (List (List ℕ)) };

    /// These words. Only refused memory is an error.
    fn words(&self, alloc: Global) -> Result<Vec<String>, AllocError>
        ensures given { IfOk result (λ words. TellsWords given self.now (map string_bytes words.items)) };
}

/// The words that the system gives, which it doesn't tell. If one of them isn't text there are none, and none are no command.
impl Words for HostRuntime {
    ghost given = { λ _. None };

    fn words(&self, alloc: Global) -> Result<Vec<String>, AllocError> {
        let mut words = Vec::new(alloc);
        match env::args(self) {
            Ok(args) => {
                for word in args.skip(1) {
                    words.push(word)?;
                }
                Ok(words)
            }
            Err(error) if error.kind() == ErrorKind::OutOfMemory => Err(AllocError),
            Err(_) => Ok(words),
        }
    }
}
