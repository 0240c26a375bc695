// What a case gives compared with what is expected.
use crate::asking::{answer, ask, date};
use crate::feeding::{feed, tell_two};
use crate::layout::{
    AFTER, ANSWER, BEFORE, Difference, ENDS, Kind, NAME, SAID, SAID_SIZE, UNTOUCHED, kind_of,
};
use crate::saving::{load_case, save_case};
use octets::overwrites::overwrite;
use program_io::console::say;
use program_io::fills::{fill, is_filled};
use program_io::packed::item;
use program_io::texts::part;

// The list's name and the case's.
pub fn say_name(rt: &impl Print, name: &[u8], case: &[u8]) {
    say(rt, name);
    say(rt, b" ");
    say(rt, item(case, NAME));
}

// The buffer as it is before a case.
pub fn set(case: &[u8], buffer: &mut [u8]) {
    fill(buffer, UNTOUCHED);
    overwrite(buffer, 0, item(case, BEFORE));
}

// The buffer holds these bytes and is untouched behind them.
fn leaves(buffer: &[u8], after: &[u8]) -> bool {
    match buffer.strip_prefix(after) {
        Some(rest) => is_filled(rest, UNTOUCHED),
        None => false,
    }
}

// What an answer gives in two calls, the first up to `cut`, or in one call piece by piece, is what it gave as a whole.
fn is_same(
    case: &[u8],
    after: &[u8],
    ending: &[u8],
    cut: usize,
    piece: usize,
    buffer: &mut [u8],
) -> bool {
    let mut said = [0u8; SAID_SIZE];
    let mut ends = [0u8; 16];
    tell_two(&mut ends, 0, cut, usize::MAX);
    set(case, buffer);
    feed(case, &ends, piece, buffer, &mut said);
    said.as_slice() == ending && leaves(buffer, after)
}

// How the answer in other pieces differs from what it gave as a whole: byte by byte, and cut in two at the place 1 and then at places with `gap` places between
// them.
pub fn compare_pieces(
    case: &[u8],
    after: &[u8],
    ending: &[u8],
    gap: u8,
    buffer: &mut [u8],
) -> Option<Difference> {
    let size = item(case, ANSWER).len();
    if !is_same(case, after, ending, usize::MAX, 1, buffer) {
        return Some(Difference::ByteByByte);
    }
    for cut in (1..size).step_by(usize::from(gap) + 1) {
        if !is_same(case, after, ending, cut, 0, buffer) {
            return Some(Difference::InTwo);
        }
    }
    None
}

// Does what a case asks.
pub fn play(case: &[u8], buffer: &mut [u8], said: &mut [u8]) {
    set(case, buffer);
    match kind_of(case) {
        Kind::Answer => answer(case, buffer, said),
        Kind::Request => ask(case, buffer, said),
        Kind::Date => date(case, said),
        Kind::Save => save_case(case, buffer, said),
        Kind::Load => load_case(case, buffer, said),
        Kind::Reader | Kind::Corpus | Kind::Whole => feed(case, item(case, ENDS), 0, buffer, said),
    }
}

// What differs in what was said and in the buffer.
pub fn difference(case: &[u8], said: &[u8], buffer: &mut [u8]) -> Option<Difference> {
    let expected = item(case, SAID);
    if !said.starts_with(expected) {
        return Some(Difference::Says);
    }
    let after = item(case, AFTER);
    if !leaves(buffer, after) {
        return Some(Difference::Leaves);
    }
    if kind_of(case) != Kind::Reader {
        return None;
    }
    compare_pieces(case, after, part(expected, 0, SAID_SIZE), 0, buffer)
}
