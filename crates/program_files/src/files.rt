// Files by name, read to their end. A read that fails is told apart from the end of a file. No contract says what the system gives: what is decided by it
// is decided by functions of its values, each with an equation.
ghost use Rattle.std.specs.Prelude.{◌≡◌, false, not, ◌&&◌, ◌||◌, leb, length, is_some};
ghost use Rattle.io.specs.Counts.{IsPrefixLen};
ghost use Rattle.program_files.specs.Files.{EndTold, ended_by, may_judge, whole_told};

use crate::arguments::file_name;
use crate::failures::print_failure;
use crate::print_error;
use std::fs::File;
use std::io::{Error, ErrorKind, Read, Result, Seek, SeekFrom};
use std::rt::{Env, Files};
use std::{fs, str};

// A file that was opened: the system's file, none where it could not be opened, and whether it counts as empty because it is missing.
#[derive(Drop)]
pub struct Opened {
    pub file: Option<File>,
    pub missing: bool,
}

// What was read of a file: its bytes, and what the system told of it: whether it is missing, whether it was opened, and whether it came to its end before the
// space was full. By these, whether the program may judge by it.
#[derive(Drop)]
pub struct Content {
    pub bytes: usize,
    pub missing: bool,
    pub opened: bool,
    pub ended: bool,
    pub whole: bool,
}

// Whether standard error names a file that can't be opened: a missing one only where that is asked for.
fn names_file(missing: bool, tells_missing: bool) -> bool
    ensures { result ≡ (not missing || tells_missing) }
{
    if missing {
        return tells_missing;
    }
    true
}

// The system's number of the error that a text is not well formed.
const EILSEQ: i32 = 84;

// Opens a file for reading. A name that is no text has no file: std takes names as text.
fn open_named(rt: &impl Files<File = File>, name: &[u8]) -> Result<File> {
    match str::from_utf8(name) {
        Ok(text) => fs::open(rt, text),
        Err(_) => Err(Error::from_raw_os_error(EILSEQ)),
    }
}

// A file that can't be opened. Standard error names it with the reason; a missing one only where that is asked for.
fn unopened(name: &[u8], error: Error, tells_missing: bool) -> Opened
    ensures { is_some result.file ≡ false }
{
    let missing = error.kind() == ErrorKind::NotFound;
    if names_file(missing, tells_missing) {
        print_failure(name, error);
    }
    Opened {
        file: None,
        missing,
    }
}

// Opens a file for reading. Where it can't be opened, standard error names it with the reason; a missing one only where that is asked for.
pub(crate) fn open_told(rt: &impl Files<File = File>, name: &[u8], tells_missing: bool) -> Opened
    ensures { (result.missing && is_some result.file) ≡ false }
{
    match open_named(rt, name) {
        Ok(file) => Opened {
            file: Some(file),
            missing: false,
        },
        Err(error) => unopened(name, error, tells_missing),
    }
}

// Opens a file for reading. Where it can't be opened, standard error names it with the reason.
pub fn open_file(rt: &impl Files<File = File>, name: &[u8]) -> Opened
    ensures { (result.missing && is_some result.file) ≡ false }
{
    open_told(rt, name, true)
}

// A place in a file as a number, negative where the system tells none.
fn place_told(told: Result<u64>) -> i64 {
    match told {
        Ok(place) => place.cast_signed(),
        Err(_) => -1,
    }
}

// The bytes of a file as the system tells them, negative where it tells none, as of a pipe. The next read is at the start. Any number may be told: there is
// nothing to promise of it.
pub fn file_size(opened: &Opened) -> i64 {
    match &opened.file {
        None => -1,
        Some(file) => size_told(file),
    }
}

// The same of a file that is open.
fn size_told(file: &File) -> i64 {
    let mut at = file;
    let size = place_told(at.seek(SeekFrom::End(0)));
    let _ = at.seek(SeekFrom::Start(0));
    size
}

// Reads until a space is full, the file ends or a read fails, and returns how many bytes were put at the start of the space; none where there is no file.
pub fn read_full(opened: &Opened, space: &mut [u8]) -> usize
    ensures { IsPrefixLen result space.new }
{
    match &opened.file {
        None => 0,
        Some(file) => read_until_full(file, space),
    }
}

// The same of a file that is open.
fn read_until_full(file: &File, space: &mut [u8]) -> usize
    ensures { IsPrefixLen result space.new }
{
    let mut reader = file;
    let mut done = 0;
    while done < space.len() {
        match reader.read(&mut space[done..]) {
            Ok(0) => break,
            Ok(n) => done += n,
            Err(_) => break,
        }
    }
    done
}

// Whether a file is at its end, by what one more read gave, the size that the system told before and the place to which the reads have come.
fn is_ended(got: isize, size: i64, place: i64) -> bool
    ensures { result ≡ ended_by got size place }
{
    if got != 0 {
        return false;
    }
    if size <= 0 {
        return true;
    }
    place == size
}

// What one more read gives: how many bytes, or a negative number where it fails.
fn one_more_read(file: &File) -> isize {
    let mut one = [0u8; 1];
    let mut reader = file;
    match reader.read(&mut one) {
        Ok(0) => 0,
        Ok(_) => 1,
        Err(_) => -1,
    }
}

// Whether a file that is open is at its end.
fn is_read(file: &File, size: i64) -> bool
    ensures { EndTold result size }
{
    let got = one_more_read(file);
    let mut at = file;
    let place = place_told(at.seek(SeekFrom::Current(0)));
    is_ended(got, size, place)
}

// Whether a file that was read is at its end: one more read gives nothing, and no error, and the reads have come to the size that the system
// told before.
pub fn at_end(opened: &Opened, size: i64) -> bool
    ensures { EndTold result size }
{
    match &opened.file {
        None => is_ended(-1, size, -1),
        Some(file) => is_read(file, size),
    }
}

// Closes a file that was read, or reads as empty where it is missing. Whether the program may judge by it: where it was not read whole, standard
// error says so.
pub fn close_file(name: &[u8], opened: Opened, whole: bool) -> bool
    ensures { result ≡ may_judge opened.missing (is_some opened.file) whole }
{
    if opened.missing {
        return true;
    }
    if opened.file.is_none() {
        return false;
    }
    if !whole {
        print_error(name);
        print_error(b": could not be read whole\n");
    }
    whole
}

// Whether a file was read whole, or as far as the space goes.
fn is_whole(bytes: usize, room: usize, ended: bool) -> bool
    ensures { result ≡ (leb room bytes || ended) }
{
    if room <= bytes {
        return true;
    }
    ended
}

// Reads the first bytes of a file that was opened, as many as the space holds, and closes it; none of a missing file.
pub(crate) fn read_opened(name: &[u8], opened: Opened, space: &mut [u8]) -> Content
    ensures prefix_len { IsPrefixLen result.bytes space.new }
    ensures whole_value { result.whole ≡ whole_told result (length space.new) }
{
    let size = file_size(&opened);
    let bytes = read_full(&opened, space);
    let mut ended = false;
    if bytes < space.len() {
        ended = at_end(&opened, size);
    }
    let whole = is_whole(bytes, space.len(), ended);
    Content {
        bytes,
        missing: opened.missing,
        opened: opened.file.is_some(),
        ended,
        whole: close_file(name, opened, whole),
    }
}

// Reads a file's first bytes, as many as the space holds; none of a missing file.
pub fn load_file(rt: &impl Files<File = File>, name: &[u8], space: &mut [u8]) -> Content
    ensures prefix_len { IsPrefixLen result.bytes space.new }
    ensures whole_value { result.whole ≡ whole_told result (length space.new) }
{
    let opened = open_told(rt, name, true);
    read_opened(name, opened, space)
}

// The same of the file that an argument names, or of the usual one where there is no such argument.
pub fn load_argument<R: Env + Files<File = File>>(
    rt: &R,
    place: usize,
    usual: &[u8],
    space: &mut [u8],
) -> Content
    ensures prefix_len { IsPrefixLen result.bytes space.new }
    ensures whole_value { result.whole ≡ whole_told result (length space.new) }
{
    let mut name = io::buffer();
    let n = file_name(rt, place, usual, &mut name);
    load_file(rt, &name[..n], space)
}
