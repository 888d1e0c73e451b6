//! One file of 64 sectors in memory, whatever the path: devices of which it is told what their files hold. The premises of the theorems
//! on the program's call are met here, over a tape and a paper in memory.

ghost use Rattle.std.specs.Prelude.{◌≡◌, List, [], ◌∷◌, ℕ, Some, None, codes, length};

use b67_backing::Backing;
use b67_program::{Devices, Words};
use b67_word::Failed;
use std::alloc::{AllocError, Global};

/// The sectors of the file, while they are used.
#[derive(Drop)]
pub struct ShelfFile {
    held: [[u64; 30]; 64],
    calls: u64,
    ghost long: { length held ≡ 64 },
}

impl Backing for ShelfFile {
    ghost holds = { λ f. Some f.held };

    ghost size = { λ _. 64 };

    ghost faults = { λ _. 0 };

    ghost calls = { λ f. f.calls };

    fn sectors(&self) -> u32 {
        64
    }

    fn read(&mut self, n: u32, into: &mut [u64; 30]) -> Result<(), Failed> {
        self.calls = self.calls.saturating_add(1);
        *into = self.held[n as usize - 1];
        Ok(())
    }

    fn write(&mut self, n: u32, from: &[u64; 30]) -> Result<(), Failed> {
        self.calls = self.calls.saturating_add(1);
        self.held[n as usize - 1] = *from;
        Ok(())
    }
}

/// The file of every path.
#[derive(Drop)]
pub struct Shelf {
    held: [[u64; 30]; 64],
    ghost long: { length held ≡ 64 },
}

impl Shelf {
    /// A file of zeros.
    pub fn new() -> Self {
        Shelf {
            held: [[0; 30]; 64],
        }
    }
}

impl Devices for Shelf {
    type File = ShelfFile;

    ghost opened = { λ _. None };

    ghost kept = { λ d _. Some d.held };

    fn open(&mut self, _path: &str) -> ShelfFile {
        ShelfFile {
            held: self.held,
            calls: 0,
        }
    }

    fn close(&mut self, _path: &str, file: ShelfFile) {
        let held = file.held;
        self.held = held;
    }
}

/// A shelf stands in for a process, too: its words are `check`, and it tells them.
impl Words for Shelf {
    ghost given = { λ _. Some (codes "check" ∷ []) };

    fn words(&self, alloc: Global) -> Result<Vec<String>, AllocError> {
        let mut words = Vec::new(alloc);
        words.push(String::from_str(alloc, "check")?)?;
        Ok(words)
    }
}
