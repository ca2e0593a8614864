// Files that the program's arguments name. Each failure is told on standard error with the file's name.
ghost use Rattle.std.specs.Prelude.{◌≡◌, ◌≤◌, length, IsUtf8};
ghost use Rattle.programme.specs.Read.{came};

use crate::arguments;
use crate::arguments::LONGEST;
use std::env::Env;
use std::fs::{File, Files};
use std::io::{Cursor, Error, ErrorKind, Read, Write};

// The places of the names among the arguments, behind the slots and the spectrum edge.
pub const LINES: usize = 3;

pub const SAMPLES: usize = 4;

// As many bytes as are read and written at a time.
pub const PIECE: usize = 65536;

// A cue line of more characters than the longest has is refused whatever they are, so one more than that is all that is held of it.
pub const HELD: usize = limits::DIGITS + 1;

// Something failed, and what the system refused has been told.
#[derive(Clone, Copy, Debug, PartialEq, Eq)]
pub struct Failed;

// A read failed, which has been told; so many of what was asked for had come before.
#[derive(Clone, Copy, Debug, PartialEq, Eq)]
pub struct Cut {
    pub came: usize,
}

impl From<Cut> for Failed {
    fn from(_cut: Cut) -> Failed {
        Failed
    }
}

// The text that bytes are, and words that say so where they are none.
pub fn text_of(bytes: &[u8]) -> &str
    ensures { IsUtf8 bytes.now → result.now ≡ bytes.now }
{
    std::str::from_utf8(bytes).unwrap_or("(no UTF-8 text)")
}

// What an error's text says before the number that the system has for it.
fn words_of(text: &str) -> &str {
    text.split_once(" (os error ")
        .map_or(text, |(words, _)| words)
}

// Tells the system's words for what failed, behind the name that stands at a place.
fn tell(rt: &(impl Env + Eprint), place: usize, error: Error) -> Failed {
    let mut memory = [0u8; LONGEST];
    let name = text_of(arguments::text_at(rt, place, &mut memory).unwrap_or(b""));
    let mut said = Cursor::new([0u8; 256]);
    let _ = write!(said, "{error}");
    let length = (said.position() as usize).min(256);
    let said = said.into_inner();
    let words = words_of(text_of(&said[..length]));
    let _ = eprintln!(rt; "lefasumu: {name}: {words}");
    Failed
}

// What opening the file gives whose name stands at a place. A file's name is UTF-8 text.
fn opened<F: FnOnce(&str) -> Result<File, Error>>(
    rt: &(impl Env + Eprint),
    place: usize,
    by: F,
) -> Result<File, Failed>
    requires { F.IsAlwaysCallable by }
{
    let mut memory = [0u8; LONGEST];
    let name = arguments::text_at(rt, place, &mut memory).unwrap_or(b"");
    std::str::from_utf8(name)
        .map_err(|_| Error::from(ErrorKind::InvalidFilename))
        .and_then(by)
        .map_err(|error| tell(rt, place, error))
}

pub fn open_to_read<R: Files<File = File> + Env + Eprint>(
    rt: &R,
    place: usize,
) -> Result<File, Failed> {
    opened(rt, place, |path| File::open(rt, path))
}

// A file that is made or emptied.
pub fn open_to_write<R: Files<File = File> + Env + Eprint>(
    rt: &R,
    place: usize,
) -> Result<File, Failed> {
    opened(rt, place, |path| File::create(rt, path))
}

// How many bytes one read brought: none at the end of the file, and none where it failed.
pub fn read_some(
    rt: &(impl Env + Eprint),
    place: usize,
    mut file: &File,
    bytes: &mut [u8],
) -> Result<usize, Cut>
    ensures { came result ≤ length bytes.old }
{
    file.read(bytes).map_err(|error| {
        tell(rt, place, error);
        Cut { came: 0 }
    })
}

// Reads until the memory is full, the file ends or a read fails.
// Kept: a loop of reads: `read_exact` does not say how many bytes came before the file's end, whose whole rows are still played.
pub fn read_all(
    rt: &(impl Env + Eprint),
    place: usize,
    file: &File,
    bytes: &mut [u8],
) -> Result<usize, Cut>
    ensures { came result ≤ length bytes.old }
{
    let mut done = 0;
    while done < bytes.len() {
        match read_some(rt, place, file, &mut bytes[done..]) {
            Ok(0) => break,
            Ok(count) => done += count,
            Err(_) => return Err(Cut { came: done }),
        }
    }
    Ok(done)
}

// Writes all of the bytes.
pub fn write_all(
    rt: &(impl Env + Eprint),
    place: usize,
    mut file: &File,
    bytes: &[u8],
) -> Result<(), Failed> {
    file.write_all(bytes)
        .map_err(|error| tell(rt, place, error))
}
