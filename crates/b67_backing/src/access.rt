//! Files whose bytes are read and written by their places.

ghost use Rattle.std.specs.Prelude.{◌≡◌, ◌+◌, ◌<ℤ◌, ℕ, List, Option, None, IfOk, OnOk, OnErr, length, pos};
ghost use Rattle.std.specs.Fd.{file_raw_fd};
ghost use Rattle.b67_backing.specs.File.{LiesAt, Overwrites, Puts, of_length};
ghost use Rattle.b67_backing.specs.Held.{Tells, Becomes, Changes};

use std::fs::File;
use std::io;
use std::io::ErrorKind;
use std::os::fd::AsRawFd;
use std::os::unix::fs::FileExt;

/// The largest number of a standard stream.
const LAST_STREAM: i32 = 2;

/// A file whose bytes are read and written by their places, and that one handle may hold for itself.
pub trait RandomAccess {
    /// The bytes, if the file tells them.
    ghost bytes: { Self → Option (List ℕ) };

    /// The same open file, held by this handle alone until it is closed. An error if another handle holds it.
    fn hold(self) -> io::Result<Self>
    where
        Self: Sized,
        ensures same { IfOk result (λ held. bytes held ≡ bytes self) };

    /// The length in bytes.
    fn length(&self) -> io::Result<u64>
        ensures value { IfOk result (λ n. Tells bytes self.now (λ all. length all ≡ n)) };

    /// Cuts the file to a length in bytes, or fills it up with zeros. After an error it is as it was.
    fn set_length(&mut self, wanted: u64) -> io::Result<()>
        ensures long { OnOk result (Tells bytes self.new (λ all. length all ≡ wanted)) }
        ensures set { OnOk result (Becomes bytes self.old self.new (of_length wanted)) }
        ensures same { OnErr result (Becomes bytes self.old self.new (λ all. all)) };

    /// Fills the buffer with the bytes from a place on. An error if the file ends before. No byte is changed.
    fn read_at(&mut self, at: u64, into: &mut [u8]) -> io::Result<()>
        ensures gives { OnOk result (Tells bytes self.old (LiesAt at into.new)) }
        ensures same { Becomes bytes self.old self.new (λ all. all) };

    /// Writes these bytes from a place on, and changes no other. After an error some of them may be written.
    fn write_at(&mut self, at: u64, from: &[u8]) -> io::Result<()>
        ensures puts { OnOk result (Changes bytes self.old self.new (Puts at from.now)) }
        ensures others { Changes bytes self.old self.new (Overwrites at (length from.now)) };
}

/// The same open file under a number that is no standard stream's. The system gives a file the number of a standard
/// stream that is closed, and what is printed would go into it.
fn apart(file: File) -> io::Result<File>
    ensures { IfOk result (λ apart. pos 2 <ℤ file_raw_fd apart) }
{
    if file.as_raw_fd() > LAST_STREAM {
        return Ok(file);
    }
    let copy = file.try_clone()?;
    if copy.as_raw_fd() > LAST_STREAM {
        return Ok(copy);
    }
    Err(ErrorKind::Unsupported.into())
}

/// A file of the system. It tells no bytes. Once held, it has no standard stream's number.
impl RandomAccess for File {
    ghost bytes = { λ _. None };

    fn hold(self) -> io::Result<File>
        ensures apart { IfOk result (λ held. pos 2 <ℤ file_raw_fd held) }
    {
        let file = apart(self)?;
        file.try_lock()?;
        Ok(file)
    }

    fn length(&self) -> io::Result<u64> {
        Ok(self.metadata()?.len())
    }

    fn set_length(&mut self, wanted: u64) -> io::Result<()> {
        self.set_len(wanted)
    }

    fn read_at(&mut self, at: u64, into: &mut [u8]) -> io::Result<()> {
        self.read_exact_at(into, at)
    }

    fn write_at(&mut self, at: u64, from: &[u8]) -> io::Result<()> {
        self.write_all_at(from, at)
    }
}
