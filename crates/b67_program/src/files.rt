//! The files that a run may page to.

ghost use Rattle.std.specs.Prelude.{◌≡◌, List, ℕ, Option, None, [], ◌∷◌};
ghost use Rattle.b67_program.specs.Opening.{OpensPaths, Finds, Leaves};

use b67_backing::{Backing, FileBacking};
use b67_word::Failed;
use std::fs;
use std::fs::File;
use std::os::unix::fs::MetadataExt;

/// The file that is printed into: lines would go into the sectors of a backing at a path that leads there.
const PRINTED: &str = "/dev/stdout";

/// What hands out the backing of a path.
pub trait Devices {
    type File: Backing + Drop;

    /// The paths that were opened, the first one first, if it tells them.
    ghost opened: { Self → Option (List (List ℕ)) };

    /// What the sectors of a path's file hold, if it tells it.
    ghost kept: { Self → List ℕ → Option (List (List ℕ)) };

    /// The backing at a path. If it can't be had, every call of it fails.
    fn open(&mut self, path: &str) -> Self::File
        ensures opens { OpensPaths opened self.old self.new (path.now ∷ []) }
        ensures finds { Finds kept Self.File.holds self.old path.now result };

    /// The backing at a path is used no more: the path's file holds what it held.
    fn close(&mut self, path: &str, file: Self::File)
        ensures same { opened self.new ≡ opened self.old }
        ensures leaves { Leaves kept Self.File.holds self.new path.now file };
}

/// Whether two paths lead to one file, as far as the system says.
pub fn lead_to_one_file(rt: &HostRuntime, path: &str, other: &str) -> bool {
    match (fs::metadata(rt, path), fs::metadata(rt, other)) {
        (Ok(one), Ok(two)) => one.dev() == two.dev() && one.ino() == two.ino(),
        _ => false,
    }
}

/// Sectors in a file of the system. It doesn't tell what they hold.
#[derive(Drop)]
pub struct SystemFile {
    sectors: FileBacking<File>,
}

impl Backing for SystemFile {
    ghost holds = { λ _. None };

    ghost size = { λ _. 65536 };

    ghost faults = { λ f. f.sectors.faults };

    ghost calls = { λ f. f.sectors.calls };

    fn sectors(&self) -> u32 {
        self.sectors.sectors()
    }

    fn read(&mut self, n: u32, into: &mut [u64; 30]) -> Result<(), Failed> {
        self.sectors.read(n, into)
    }

    fn write(&mut self, n: u32, from: &[u64; 30]) -> Result<(), Failed> {
        self.sectors.write(n, from)
    }
}

/// The sectors in the file at a path, unless another path, into whose file lines are printed, leads to the same file: then every call
/// fails, since no file has the empty name, and that file stays as it is.
pub fn open_apart(rt: &HostRuntime, path: &str, printed: &str) -> SystemFile {
    let path = if lead_to_one_file(rt, printed, path) {
        ""
    } else {
        path
    };
    SystemFile {
        sectors: FileBacking::at(rt, path),
    }
}

/// The system's files. It doesn't tell which were opened. If standard output is the file at a path, that isn't opened.
impl Devices for HostRuntime {
    type File = SystemFile;

    ghost opened = { λ _. None };

    ghost kept = { λ _ _. None };

    fn open(&mut self, path: &str) -> SystemFile {
        open_apart(self, path, PRINTED)
    }

    fn close(&mut self, _path: &str, _file: SystemFile) {}
}
