// A copy from its data file and its side file.
use crate::state::{Done, Held, total};
use baxoodhiir::baxoodhiir_load;
use program_io::arguments::word;
use program_io::console::{Refused, about};
use program_io::files::{ReadError, is_missing, is_there, load};
use program_io::texts::part;
use rules_server::Limits;
use std::rt::Files;

// The runs that the side file's bytes say of a copy under this tag and length. Whether they do; where not, a line says why.
fn load_runs(rt: &impl Print, held: &mut Held, side: &[u8], bytes: &[u8]) -> bool {
    let mut saved_tag = [0u8; Limits::MAX_TAG];
    let mut tag_len = 0;
    let mut saved_length = 0;
    let refusal = baxoodhiir_load(
        bytes,
        &mut saved_tag,
        &mut tag_len,
        &mut saved_length,
        held.runs,
    );
    if refusal != 0 {
        about(rt, side, Refused(refusal));
        return false;
    }
    if saved_length == held.buffer.len() && part(&saved_tag, 0, tag_len) == held.tag {
        return true;
    }
    about(rt, side, "saved under another tag or length");
    false
}

// A data file that was loaded so was not written to its end: it is shorter than the copy, or there is none.
fn is_unfinished(
    rt: &impl Files,
    stored: &[u8],
    loaded: Result<usize, ReadError>,
    length: usize,
) -> bool {
    match loaded {
        Ok(n) => n < length,
        Err(ReadError::Unreadable) => is_missing(rt, stored),
        Err(ReadError::TooLarge) => false,
    }
}

// The data file's bytes. What the copy is then: resumed where the file is of the buffer's length; opened where nothing is held and the file was not written to
// its end; where neither, a line says so.
fn load_bytes(rt: &(impl Files + Print), held: &mut Held, stored: &[u8]) -> Option<Done> {
    let length = held.buffer.len();
    let loaded = load(rt, stored, held.buffer);
    if loaded == Ok(length) {
        return Some(Done::Resumed);
    }
    if total(held.runs) == 0 && is_unfinished(rt, stored, loaded, length) {
        return Some(Done::Opened);
    }
    match loaded {
        Err(ReadError::Unreadable) => about(rt, stored, ReadError::Unreadable),
        _ => about(
            rt,
            stored,
            "refused: 19, the data file is not of the copy's length",
        ),
    }
    None
}

// What a copy is that has no side file: opened where it has no data file either; where there is one, a line says so.
fn without_data(rt: &(impl Files + Print), stored: &[u8]) -> Option<Done> {
    if is_there(rt, stored) {
        about(rt, stored, "is there without its side file");
        return None;
    }
    if is_missing(rt, stored) {
        return Some(Done::Opened);
    }
    about(rt, stored, ReadError::Unreadable);
    None
}

// What a copy is whose side file was not read: opened where it has none and no data file; where there is one of them, a line says so.
fn without_side(rt: &(impl Files + Print), stored: &[u8], side: &[u8]) -> Option<Done> {
    if is_missing(rt, side) {
        return without_data(rt, stored);
    }
    about(rt, side, ReadError::Unreadable);
    None
}

// What was done with a copy under this tag, of the buffer's length: opened or resumed; or nothing, and a line says why. A side file that is longer than a
// buffer for a word is no saved copy, and its front is refused as the whole is.
pub fn load_copy(
    rt: &(impl Files + Print),
    held: &mut Held,
    stored: &[u8],
    side: &[u8],
) -> Option<Done> {
    let mut bytes = word();
    let n = match load(rt, side, &mut bytes) {
        Ok(n) => n,
        Err(ReadError::TooLarge) => bytes.len(),
        Err(ReadError::Unreadable) => return without_side(rt, stored, side),
    };
    if load_runs(rt, held, side, part(&bytes, 0, n)) {
        return load_bytes(rt, held, stored);
    }
    None
}
