//! Sectors in a file.

ghost use Rattle.std.specs.Prelude.{◌≡◌, ◌↔◌, ℕ, ◌*◌, ◌+◌, ◌-◌, ◌<◌, ◌≤◌, ◌^◌, List, [], ◌∷◌, Some, length, min, slice_index, IfSome, IsOk, IsTrue, IfOk, OnOk, OnErr};
ghost use Rattle.byteorder.specs.Endian.{big_from};
ghost use Rattle.b67_backing.specs.File.{KeepsBytes, file_sectors, told_sectors, sectors_from};
ghost use Rattle.b67_backing.specs.Held.{Tells, Becomes, Changes, SameBut, Sets, sector};
ghost use Rattle.b67_backing.specs.declared.file.TheConstants.{SECTORS};

use crate::{Backing, RandomAccess};
use b67_word::Failed;
use byteorder::{BigEndian, ByteOrder};
use std::fs::OpenOptions;
use std::io;
use std::io::ErrorKind;
use std::rt::Files;

/// How many sectors the file has.
const SECTORS: u32 = 65536;

/// How many bytes a sector has: eight for each of 30 numbers.
const SECTOR_BYTES: usize = 240;

/// How many bytes the file has.
const FILE_BYTES: u64 = 15_728_640;

/// A file of 65,536 sectors of 240 bytes: 15,728,640 bytes, sector 1 first, each number as eight bytes, the highest
/// first. It tells its sectors if the file tells its bytes; a file of the system tells none. If the file couldn't be
/// opened, every call fails.
#[derive(Drop)]
pub struct FileBacking<F: RandomAccess + Drop> {
    file: Option<F>,
    calls: u64,
    faults: u64,
}

/// Gives an empty file the full length. Any other length is an error, and the file stays as it is.
fn fill_up<F: RandomAccess>(file: &mut F) -> io::Result<()>
    ensures full { OnOk result (Tells F.bytes file.new (λ all. length all ≡ 15728640)) }
    ensures kept { Changes F.bytes file.old file.new KeepsBytes }
{
    match file.length()? {
        FILE_BYTES => Ok(()),
        0 => file.set_length(FILE_BYTES),
        _ => Err(ErrorKind::InvalidData.into()),
    }
}

/// The file at a path, held by this handle alone, of the full length; created if it is missing.
fn open_sectors<F: RandomAccess, R: Files<File = F>>(rt: &R, path: &str) -> io::Result<F>
    ensures full { IfOk result (λ f. Tells F.bytes f (λ all. length all ≡ 15728640)) }
{
    let file = OpenOptions::new()
        .read(true)
        .write(true)
        .create(true)
        .open(rt, path)?;
    let mut file = file.hold()?;
    fill_up(&mut file)?;
    Ok(file)
}

/// The place of a sector's first byte.
fn place_of(n: u32) -> u64
    requires { 1 ≤ n }
    ensures { result ≡ 240 * (n - 1) }
{
    u64::from(n - 1) * SECTOR_BYTES as u64
}

/// The bytes of 30 numbers, eight for each, the highest first.
fn bytes_of(numbers: &[u64; 30]) -> [u8; SECTOR_BYTES]
    ensures long { length result ≡ 240 }
    ensures numbers { (i : ℕ) → i < 30 → big_from (8 * i) 8 result ≡ slice_index numbers.now i }
{
    let mut bytes = [0u8; SECTOR_BYTES];
    BigEndian::write_u64_into(numbers, &mut bytes);
    bytes
}

/// Reads sector n of a file.
fn read_sector<F: RandomAccess>(file: &mut F, n: u32, into: &mut [u64; 30]) -> io::Result<()>
    requires low { 1 ≤ n }
    requires high { n ≤ SECTORS }
    ensures gives { OnOk result (Tells (λ f. told_sectors (F.bytes f)) file.old (λ all. sector all n ≡ Some into.new)) }
    ensures same { Becomes F.bytes file.old file.new (λ all. all) }
{
    let mut bytes = [0u8; SECTOR_BYTES];
    file.read_at(place_of(n), &mut bytes)?;
    BigEndian::read_u64_into(&bytes, into);
    Ok(())
}

/// Writes sector n of a file, and no other.
fn write_sector<F: RandomAccess>(file: &mut F, n: u32, from: &[u64; 30]) -> io::Result<()>
    requires low { 1 ≤ n }
    requires high { n ≤ SECTORS }
    ensures sets { OnOk result (Changes (λ f. told_sectors (F.bytes f)) file.old file.new (Sets n from.now)) }
    ensures others { Changes (λ f. told_sectors (F.bytes f)) file.old file.new (SameBut (n ∷ [])) }
{
    file.write_at(place_of(n), &bytes_of(from))
}

/// Reads a sector, and says whether it was read.
fn reads<F: RandomAccess>(file: &mut Option<F>, n: u32, into: &mut [u64; 30]) -> bool
    requires low { 1 ≤ n }
    requires high { n ≤ SECTORS }
    ensures gives { IsTrue result → Tells (file_sectors F.bytes) file.old (λ all. sector all n ≡ Some into.new) }
    ensures same { Becomes (file_sectors F.bytes) file.old file.new (λ all. all) }
{
    match file {
        Some(file) => read_sector(file, n, into).is_ok(),
        None => false,
    }
}

/// Writes a sector, and says whether it was written.
fn writes<F: RandomAccess>(file: &mut Option<F>, n: u32, from: &[u64; 30]) -> bool
    requires low { 1 ≤ n }
    requires high { n ≤ SECTORS }
    ensures sets { IsTrue result → Changes (file_sectors F.bytes) file.old file.new (Sets n from.now) }
    ensures others { Changes (file_sectors F.bytes) file.old file.new (SameBut (n ∷ [])) }
{
    match file {
        Some(file) => write_sector(file, n, from).is_ok(),
        None => false,
    }
}

impl<F: RandomAccess + Drop> FileBacking<F> {
    /// The sectors in the file at a path. The file is created if it is missing, and it gets its length at once; an empty
    /// file gets it too. A file of any other length, one that another handle holds, a folder, and a file that can't be
    /// opened or made for reading and writing stay as they are, and every call fails.
    pub fn at<R: Files<File = F>>(rt: &R, path: &str) -> FileBacking<F>
        ensures told { IfSome result.file (λ f. Tells F.bytes f (λ all. file_sectors F.bytes result.file ≡ Some (sectors_from SECTORS 0 all))) }
        ensures calls { result.calls ≡ 0 }
        ensures faults { result.faults ≡ 0 }
    {
        FileBacking {
            file: open_sectors(rt, path).ok(),
            calls: 0,
            faults: 0,
        }
    }

    /// Counts a call, and its failure if it wasn't done.
    fn counted(&mut self, done: bool) -> Result<(), Failed>
        ensures file { self.new.file ≡ self.old.file }
        ensures answer { IsOk result ↔ IsTrue done }
        ensures calls { self.new.calls ≡ min (self.old.calls + 1) (2 ^ 64 - 1) }
        ensures more { self.old.calls ≤ self.new.calls }
        ensures ok { OnOk result (self.new.faults ≡ self.old.faults) }
        ensures later { self.old.faults ≤ self.new.faults }
        ensures failed { OnErr result (self.new.faults ≡ min (self.old.faults + 1) (2 ^ 64 - 1)) }
    {
        self.calls = self.calls.saturating_add(1);
        if done {
            return Ok(());
        }
        self.faults = self.faults.saturating_add(1);
        Err(Failed)
    }
}

impl<F: RandomAccess + Drop> Backing for FileBacking<F> {
    ghost holds = { λ b. file_sectors F.bytes b.file };

    ghost size = { λ _. SECTORS };

    ghost faults = { λ b. b.faults };

    ghost calls = { λ b. b.calls };

    fn sectors(&self) -> u32 {
        SECTORS
    }

    fn read(&mut self, n: u32, into: &mut [u64; 30]) -> Result<(), Failed> {
        let done = reads(&mut self.file, n, into);
        self.counted(done)
    }

    fn write(&mut self, n: u32, from: &[u64; 30]) -> Result<(), Failed> {
        let done = writes(&mut self.file, n, from);
        self.counted(done)
    }
}
