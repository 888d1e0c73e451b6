//! A file of sectors over real files, in folders that the tests make where they run.

use crate::given::{length_of, remove_file, same};
use b67_backing::{Backing, FileBacking};
use std::alloc::{Alloc, Global};
use std::fs::{File, OpenFile, OpenOptions, Permissions};
use std::os::unix::fs::PermissionsExt;
use std::process::Abort;
use std::rt::Files;
use std::{fs, io};

/// How many bytes the file has.
const LENGTH: u64 = 15_728_640;

/// An empty folder for one test.
fn folder(rt: &HostRuntime, test: &str) -> io::Result<String> {
    let id = std::process::id(rt.process());
    let name = format!(in rt.alloc(); "b67_surface_{test}_{id}")?;
    let _ = fs::remove_dir_all(rt, name.as_str());
    fs::create_dir(rt, name.as_str())?;
    Ok(name)
}

/// The path of a file in it.
fn path_in(rt: &(impl Abort + Alloc<A = Global>), folder: &str) -> String {
    format!(in rt.alloc(); "{folder}/b").expect(rt, "memory")
}

fn remove(rt: &(impl Abort + Files + Alloc), folder: String) {
    fs::remove_dir_all(rt, folder).expect(rt, "a folder");
}

/// A file of these bytes, with zeros up to a length.
fn make_file(rt: &impl Files, path: &str, start: &[u8], length: u64) -> io::Result<()> {
    fs::write(rt, path, start)?;
    OpenOptions::new()
        .write(true)
        .open(rt, path)?
        .set_len(length)
}

fn bytes_of(rt: &(impl Abort + Files<File = File> + Alloc<A = Global>), path: &str) -> Vec<u8> {
    fs::read(rt, path).expect(rt, "a file")
}

/// The numbers of sector n: no byte is 0, and the last two are those of n and of the number's place in the sector.
fn numbers_of(n: u32) -> [u64; 30] {
    let mut numbers = [0; 30];
    for i in 0..30u64 {
        numbers[i as usize] = 0x0706_0504_0302_0000 + (u64::from(n % 100) + 1) * 256 + i + 1;
    }
    numbers
}

/// The bytes of sector n stand at a place.
fn lies_at(rt: &impl Abort, bytes: &[u8], n: u32, place: usize) {
    for i in 0..30u8 {
        let at = place.saturating_add(8 * usize::from(i));
        let wanted = [7, 6, 5, 4, 3, 2, (n % 100) as u8 + 1, i + 1];
        same(
            rt,
            (n, bytes.get(at..at.saturating_add(8))),
            (n, Some(wanted.as_slice())),
        );
    }
}

/// Sector n is written as its numbers.
fn writes<B: Backing>(rt: &impl Abort, backing: &mut B, n: u32) {
    assert!(rt; 1 <= n && n <= backing.sectors());
    same(rt, (n, backing.write(n, &numbers_of(n)).is_ok()), (n, true));
}

/// Sector n is read as these numbers.
fn reads<B: Backing>(rt: &impl Abort, backing: &mut B, n: u32, numbers: [u64; 30]) {
    assert!(rt; 1 <= n && n <= backing.sectors());
    let mut sector = [1; 30];
    same(rt, (n, backing.read(n, &mut sector).is_ok()), (n, true));
    same(rt, (n, sector), (n, numbers));
}

/// The sectors that are written, and the places of their first bytes.
const PLACES: [(u32, usize); 9] = [
    (1, 0),
    (2, 240),
    (3, 480),
    (32_767, 7_863_840),
    (32_768, 7_864_080),
    (32_769, 7_864_320),
    (65_534, 15_727_920),
    (65_535, 15_728_160),
    (65_536, 15_728_400),
];

fn writes_each<B: Backing>(rt: &impl Abort, backing: &mut B, places: &[(u32, usize)]) {
    for (n, _) in places {
        writes(rt, backing, *n);
    }
}

fn each_lies(rt: &impl Abort, bytes: &[u8], places: &[(u32, usize)]) {
    for (n, place) in places {
        lies_at(rt, bytes, *n, *place);
    }
}

fn reads_each<B: Backing>(rt: &impl Abort, backing: &mut B, places: &[(u32, usize)]) {
    for (n, _) in places {
        reads(rt, backing, *n, numbers_of(*n));
    }
}

/// Writes the sectors into a file that isn't there yet.
fn fill(rt: &(impl Abort + Files<File = File>), path: &str) {
    let mut backing = FileBacking::at(rt, path);
    same(rt, backing.sectors(), 65_536);
    same(rt, length_of(rt, path), LENGTH);
    writes_each(rt, &mut backing, &PLACES);
}

/// The sectors lie there, and all other bytes are 0.
fn lie_alone(rt: &impl Abort, bytes: &[u8]) {
    same(rt, bytes.len() as u64, LENGTH);
    each_lies(rt, bytes, &PLACES);
    same(rt, bytes.iter().filter(|byte| **byte != 0).count(), 9 * 240);
}

/// The sectors are read from the file, and zeros from those beside them.
fn reads_back(rt: &(impl Abort + Files<File = File>), path: &str) {
    let mut backing = FileBacking::at(rt, path);
    reads_each(rt, &mut backing, &PLACES);
    reads(rt, &mut backing, 4, [0; 30]);
    reads(rt, &mut backing, 32_766, [0; 30]);
    reads(rt, &mut backing, 32_770, [0; 30]);
    reads(rt, &mut backing, 65_533, [0; 30]);
}

#[test]
fn sectors_lie_at_their_places(rt: HostRuntime) {
    let folder = folder(&rt, "places").expect(&rt, "a folder");
    let path = path_in(&rt, folder.as_str());
    fill(&rt, path.as_str());
    lie_alone(&rt, &bytes_of(&rt, path.as_str()));
    reads_back(&rt, path.as_str());
    remove(&rt, folder);
}

/// A write and a read of sector n fail.
fn fails<B: Backing>(rt: &impl Abort, backing: &mut B, n: u32, path: &str) {
    assert!(rt; 1 <= n && n <= backing.sectors());
    same(
        rt,
        (path, n, backing.write(n, &[7; 30]).is_err()),
        (path, n, true),
    );
    same(
        rt,
        (path, n, backing.read(n, &mut [0; 30]).is_err()),
        (path, n, true),
    );
}

/// Every call on the sectors at a path fails.
fn every_call_fails(rt: &(impl Abort + Files<File = File>), path: &str) {
    let mut backing = FileBacking::at(rt, path);
    same(rt, backing.sectors(), 65_536);
    fails(rt, &mut backing, 1, path);
    fails(rt, &mut backing, 2, path);
    fails(rt, &mut backing, 65_536, path);
}

/// A file of another length stays as it is.
fn stays(rt: &(impl Abort + Files<File = File> + Alloc<A = Global>), path: &str, length: u64) {
    make_file(rt, path, b"?JOB SUM\n", length).expect(rt, "a file");
    let before = bytes_of(rt, path);
    same(rt, before.len() as u64, length);
    every_call_fails(rt, path);
    same(rt, (length, bytes_of(rt, path) == before), (length, true));
}

#[test]
fn files_of_other_lengths_stay(rt: HostRuntime) {
    let folder = folder(&rt, "lengths").expect(&rt, "a folder");
    let path = path_in(&rt, folder.as_str());
    stays(&rt, path.as_str(), 1);
    stays(&rt, path.as_str(), 9);
    stays(&rt, path.as_str(), 239);
    stays(&rt, path.as_str(), 240);
    stays(&rt, path.as_str(), LENGTH - 1);
    stays(&rt, path.as_str(), LENGTH + 1);
    stays(&rt, path.as_str(), 20_000_000);
    remove(&rt, folder);
}

fn gets_its_length(rt: &(impl Abort + Files<File = File>), path: &str) {
    make_file(rt, path, b"", 0).expect(rt, "a file");
    let mut backing = FileBacking::at(rt, path);
    same(rt, length_of(rt, path), LENGTH);
    reads(rt, &mut backing, 65_536, [0; 30]);
}

#[test]
fn an_empty_file_gets_its_length(rt: HostRuntime) {
    let folder = folder(&rt, "empty").expect(&rt, "a folder");
    gets_its_length(&rt, path_in(&rt, folder.as_str()).as_str());
    remove(&rt, folder);
}

/// A file that another handle has locked stays as it is.
fn stays_held(rt: &(impl Abort + Files<File = File> + Alloc<A = Global>), path: &str, length: u64) {
    make_file(rt, path, b"", length).expect(rt, "a file");
    let other = fs::open(rt, path).expect(rt, "a file");
    other.lock_shared().expect(rt, "a lock");
    every_call_fails(rt, path);
    same(rt, length_of(rt, path), length);
}

/// While a handle has a file, every call of another one fails.
fn holds(rt: &(impl Abort + Files<File = File>), path: &str) {
    let mut first = FileBacking::at(rt, path);
    writes(rt, &mut first, 1);
    every_call_fails(rt, path);
    reads(rt, &mut first, 1, numbers_of(1));
}

fn reads_later(rt: &(impl Abort + Files<File = File>), path: &str) {
    let mut later = FileBacking::at(rt, path);
    reads(rt, &mut later, 1, numbers_of(1));
}

#[test]
fn a_file_that_another_handle_holds_stays(rt: HostRuntime) {
    let folder = folder(&rt, "held").expect(&rt, "a folder");
    let path = path_in(&rt, folder.as_str());
    stays_held(&rt, path.as_str(), 0);
    stays_held(&rt, path.as_str(), LENGTH);
    holds(&rt, path.as_str());
    reads_later(&rt, path.as_str());
    remove(&rt, folder);
}

fn is_folder(rt: &(impl Abort + Files), path: &str) -> bool {
    fs::metadata(rt, path).expect(rt, "a folder").is_dir()
}

fn path_missing(rt: &(impl Abort + Alloc<A = Global>), folder: &str) -> String {
    format!(in rt.alloc(); "{folder}/none/b").expect(rt, "memory")
}

#[test]
fn a_folder_and_a_missing_folder_fail(rt: HostRuntime) {
    let folder = folder(&rt, "folders").expect(&rt, "a folder");
    let missing = path_missing(&rt, folder.as_str());
    every_call_fails(&rt, folder.as_str());
    every_call_fails(&rt, missing.as_str());
    every_call_fails(&rt, "");
    every_call_fails(&rt, "/dev/null");
    same(&rt, is_folder(&rt, folder.as_str()), true);
    same(&rt, fs::exists(&rt, missing.as_str()).ok(), Some(false));
    remove(&rt, folder);
}

fn set_mode(rt: &(impl Abort + Files), path: &str, mode: u32) {
    fs::set_permissions(rt, path, Permissions::from_mode(mode)).expect(rt, "a mode");
}

/// Whether a file may be read and written.
fn may_open(rt: &impl Files, path: &str) -> bool {
    OpenOptions::new()
        .read(true)
        .write(true)
        .open(rt, path)
        .is_ok()
}

fn begins_with_seven(rt: &impl Abort, bytes: &[u8]) {
    same(rt, bytes.len() as u64, LENGTH);
    same(rt, bytes.first(), Some(&b'7'));
}

/// A file of the right length stays as it is under a mode that doesn't let it be read and written.
fn stays_under(rt: &(impl Abort + Files<File = File> + Alloc<A = Global>), path: &str, mode: u32) {
    make_file(rt, path, b"7", LENGTH).expect(rt, "a file");
    set_mode(rt, path, mode);
    if !may_open(rt, path) {
        every_call_fails(rt, path);
    }
    set_mode(rt, path, 0o600);
    begins_with_seven(rt, &bytes_of(rt, path));
    remove_file(rt, path);
}

// Who may do all is refused nothing: then the file is opened.
#[test]
fn a_file_without_permission_stays(rt: HostRuntime) {
    let folder = folder(&rt, "permission").expect(&rt, "a folder");
    let path = path_in(&rt, folder.as_str());
    stays_under(&rt, path.as_str(), 0o000);
    stays_under(&rt, path.as_str(), 0o200);
    stays_under(&rt, path.as_str(), 0o400);
    remove(&rt, folder);
}
