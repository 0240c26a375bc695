// A stored file by its name, read whole into a lent buffer or written whole from one.
ghost use Rattle.std.specs.Prelude.{◌≡◌, ◌≢◌, ◌<◌, IfErr, length, replicate};
ghost use Rattle.program_io.specs.Loads.{Fits};

use crate::arguments::word;
use std::error::Error;
use std::fs::{OpenFile, OpenOptions};
use std::io::{ErrorKind, Read, Write};
use std::rt::Files;
use std::{fmt, fs, io};

// The programs' limits: the longest file that they hold, 1 MiB, and the longest answer, such a file and 64 KiB for the lines of the head and of the parts. An
// argument has at most the 4,096 bytes of `word()`. The texts of serve and fetch say the same three numbers.
pub const MAX_STORED: usize = 1048576;

pub const MAX_ANSWER: usize = 1114112;

// The longest name of a file that can be replaced: a path of the system has at most 4,095 bytes, and the new file has four behind the name.
pub const MAX_REPLACED: usize = 4091;

// Why a file is not read.
#[derive(Clone, Copy, Debug, PartialEq, Eq)]
pub enum ReadError {
    Unreadable,
    // It does not fit the buffer. The text is of a buffer for a stored file.
    TooLarge,
}

impl fmt::Display for ReadError {
    fn fmt<W: fmt::Write>(&self, f: &mut fmt::Formatter<W>) -> fmt::Result {
        match self {
            ReadError::Unreadable => f.write_str("cannot be read"),
            ReadError::TooLarge => f.write_str("larger than 1048576 bytes"),
        }
    }
}

impl Error for ReadError {}

impl From<io::Error> for ReadError {
    fn from(_e: io::Error) -> ReadError {
        ReadError::Unreadable
    }
}

// Why a file is not written: it cannot be opened; or its bytes were not all written and flushed; or it did not get its name.
#[derive(Clone, Copy, Debug, PartialEq, Eq)]
pub enum WriteError {
    Unopened,
    Unwritten,
    Unnamed,
}

impl fmt::Display for WriteError {
    fn fmt<W: fmt::Write>(&self, f: &mut fmt::Formatter<W>) -> fmt::Result {
        match self {
            WriteError::Unopened => f.write_str("cannot be written"),
            WriteError::Unwritten => f.write_str("could not be written whole"),
            WriteError::Unnamed => f.write_str("could not be renamed"),
        }
    }
}

impl Error for WriteError {}

// A buffer for a file, all zero.
pub fn room() -> [u8; MAX_STORED]
    ensures { result ≡ replicate 1048576 0 }
{
    [0; MAX_STORED]
}

// A buffer for an answer, all zero.
pub fn answer_room() -> [u8; MAX_ANSWER]
    ensures { result ≡ replicate 1114112 0 }
{
    [0; MAX_ANSWER]
}

// Reads to the end. One read more tells the end from a file that does not fit.
// A loop by hand: each read says how many bytes it gave, so no iterator goes over them.
fn read_whole(file: &mut impl Read, buffer: &mut [u8]) -> Result<usize, ReadError>
    ensures { Fits result (length buffer.new) }
{
    let mut n = 0;
    while n < buffer.len() {
        let k = file.read(&mut buffer[n..])?;
        if k == 0 {
            return Ok(n);
        }
        n += k;
    }
    if file.read(&mut [0])? != 0 {
        return Err(ReadError::TooLarge);
    }
    Ok(n)
}

// Opens a file by its name. The system's names are bytes, and std's are text: a name that is no UTF-8 counts as one that cannot be opened.
fn open<R: Files>(rt: &R, name: &[u8], how: &OpenOptions) -> io::Result<R::File> {
    match str::from_utf8(name) {
        Ok(path) => how.open(rt, path),
        Err(_) => Err(io::Error::from(ErrorKind::InvalidFilename)),
    }
}

fn open_read<R: Files>(rt: &R, name: &[u8]) -> io::Result<R::File> {
    let mut how = OpenOptions::new();
    how.read(true);
    open(rt, name, &how)
}

// How many bytes a file has, which stand at the front of the buffer. They are the file's as the system gives them, which no contract can say; their count lies
// within the buffer.
pub fn load(rt: &impl Files, name: &[u8], buffer: &mut [u8]) -> Result<usize, ReadError>
    ensures { Fits result (length buffer.new) }
{
    let mut file = open_read(rt, name)?;
    read_whole(&mut file, buffer)
}

// A file of this name is there, and can be opened.
pub fn is_there(rt: &impl Files, name: &[u8]) -> bool {
    open_read(rt, name).is_ok()
}

// There is no file of this name.
pub fn is_missing(rt: &impl Files, name: &[u8]) -> bool {
    match open_read(rt, name) {
        Ok(_) => false,
        Err(e) => e.kind() == ErrorKind::NotFound,
    }
}

// Writes the bytes and waits until they have reached the device.
fn write_flushed(file: &mut (impl Write + OpenFile), bytes: &[u8]) -> io::Result<()> {
    file.write_all(bytes)?;
    file.sync_all()
}

// Writes the bytes into a file that was just opened, flushes and closes it.
fn write_whole<F: Write + OpenFile + Drop>(
    opened: io::Result<F>,
    bytes: &[u8],
) -> Result<(), WriteError>
    ensures { IfErr result (λ e. e ≢ WriteError.Unnamed) }
{
    match opened {
        Ok(mut file) => write_flushed(&mut file, bytes).map_err(|_| WriteError::Unwritten),
        Err(_) => Err(WriteError::Unopened),
    }
}

// Writes the bytes into a file that is made or emptied first, and flushes it. Whether it can be opened and written no contract can say.
pub fn write_over(rt: &impl Files, name: &[u8], bytes: &[u8]) -> Result<(), WriteError>
    ensures { IfErr result (λ e. e ≢ WriteError.Unnamed) }
{
    let mut how = OpenOptions::new();
    how.write(true).create(true).truncate(true);
    let made = open(rt, name, &how);
    write_whole(made, bytes)
}

// Writes the bytes over the front of a file that exists, which is never emptied or shortened, and flushes it.
pub fn write_in_place(rt: &impl Files, name: &[u8], bytes: &[u8]) -> Result<(), WriteError>
    ensures { IfErr result (λ e. e ≢ WriteError.Unnamed) }
{
    let mut how = OpenOptions::new();
    how.read(true).write(true);
    let kept = open(rt, name, &how);
    write_whole(kept, bytes)
}

// Gives a file another name.
fn rename(rt: &impl Files, from: &[u8], to: &[u8]) -> Result<(), WriteError> {
    match (str::from_utf8(from), str::from_utf8(to)) {
        (Ok(from), Ok(to)) => fs::rename(rt, from, to).map_err(|_| WriteError::Unnamed),
        _ => Err(WriteError::Unnamed),
    }
}

// Writes the bytes into a file under another name, and then gives that file its name.
fn replace_by(rt: &impl Files, name: &[u8], new: &[u8], bytes: &[u8]) -> Result<(), WriteError> {
    write_over(rt, new, bytes)?;
    rename(rt, new, name)
}

// Replaces a file by one that is written first, with `.new` behind its name: whenever this stops, the file of this name is the old one or the new one, whole.
// Where it fails, the file is the old one.
pub fn replace(rt: &impl Files, name: &[u8], bytes: &[u8]) -> Result<(), WriteError>
    ensures { 4091 < length name.now → result ≡ Err WriteError.Unopened }
{
    let n = name.len();
    if MAX_REPLACED < n {
        return Err(WriteError::Unopened);
    }
    let mut new = word();
    new[..n].copy_from_slice(name);
    new[n..n + 4].copy_from_slice(b".new");
    replace_by(rt, name, &new[..n + 4], bytes)
}
