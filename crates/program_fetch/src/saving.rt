// A copy into its data file and its side file.
//
// The order of writes: where the data file is not yet a copy's, a side file first that says that nothing is held; then the data file whole, in place where it
// has held bytes, so that they are written over by themselves; when that is flushed, the new side file under a name of its own; when that is flushed, its name.
// So at any stop the side file is the old one or the new one, and the data file has the bytes that it says are held.
use crate::state::{Held, total};
use baxoodhiir::baxoodhiir_save;
use copy_bytes::sizes::{MAX_SAVED, RUNS_SIZE};
use program_io::console::{Refused, about, say, say_pieces};
use program_io::files::{WriteError, replace, write_in_place, write_over};
use program_io::texts::part;
use std::fmt;
use std::rt::Files;

// Why the side file is not written.
#[derive(Clone, Copy, Debug, PartialEq, Eq)]
enum Unsaved {
    Refused(Refused),
    Unwritten(WriteError),
}

impl fmt::Display for Unsaved {
    fn fmt<W: fmt::Write>(&self, f: &mut fmt::Formatter<W>) -> fmt::Result {
        match self {
            Unsaved::Refused(refused) => write!(f, "{refused}"),
            Unsaved::Unwritten(error) => write!(f, "{error}"),
        }
    }
}

// The side file of a copy under this tag, of this length, that has these runs. How many bytes it has.
fn write_side(
    rt: &impl Files,
    tag: &[u8],
    length: usize,
    runs: &[u8],
    side: &[u8],
) -> Result<usize, Unsaved> {
    let mut room = [0u8; MAX_SAVED];
    let mut n = 0;
    let refusal = baxoodhiir_save(tag, length, runs, &mut room, &mut n);
    if refusal != 0 {
        return Err(Unsaved::Refused(Refused(refusal)));
    }
    replace(rt, side, part(&room, 0, n)).map_err(|e| Unsaved::Unwritten(e))?;
    Ok(n)
}

// The data file: in place where it has the held bytes of a saved copy.
fn write_bytes(
    rt: &impl Files,
    bytes: &[u8],
    stored: &[u8],
    in_place: bool,
) -> Result<(), WriteError> {
    if in_place {
        return write_in_place(rt, stored, bytes);
    }
    write_over(rt, stored, bytes)
}

// The value, where there is one; else a line about the file says why there is none.
fn written<T, E: fmt::Display + Drop>(
    rt: &impl Print,
    file: &[u8],
    outcome: Result<T, E>,
) -> Option<T> {
    match outcome {
        Ok(value) => Some(value),
        Err(why) => {
            about(rt, file, why);
            None
        }
    }
}

// The data file and then the side file; before them, for a data file that is not yet a copy's, a side file that says that nothing is held. Nothing where one of
// them was not written, and a line says why.
fn write_files(
    rt: &(impl Files + Print),
    held: &Held,
    stored: &[u8],
    side: &[u8],
    in_place: bool,
) -> Option<()> {
    let n = held.buffer.len();
    if !in_place {
        let none = [0u8; RUNS_SIZE];
        written(rt, side, write_side(rt, held.tag, n, &none, side))?;
    }
    written(rt, stored, write_bytes(rt, held.buffer, stored, in_place))?;
    say(rt, stored);
    say_pieces(rt, format_args!(": written, {n} bytes\n"));
    let saved = written(rt, side, write_side(rt, held.tag, n, held.runs, side))?;
    say(rt, side);
    say_pieces(rt, format_args!(": saved, {saved} bytes\n"));
    Some(())
}

pub fn save_copy(
    rt: &(impl Files + Print),
    held: &Held,
    stored: &[u8],
    side: &[u8],
    in_place: bool,
) {
    if write_files(rt, held, stored, side, in_place).is_none() {
        return;
    }
    if total(held.runs) == held.buffer.len() {
        return about(rt, stored, "the whole file");
    }
    about(rt, stored, "not yet the whole file");
}
