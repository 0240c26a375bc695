// Fetches a file from stored answers, in one run or in several: TAG LENGTH PIECE DATA SIDE [ANSWER ..]
// Goes on from a copy that is saved in the files DATA and SIDE, or opens one under TAG and LENGTH where there is no SIDE; feeds each answer to a fresh reader
// in pieces of PIECE bytes, and says after each how it went, what is held, and the next request; then saves the copy in DATA and SIDE.
// A copy is its tag, its buffer and a list of its runs in bytes, as in include/baxoodhiir.h.
#![tactic(auto)]

mod answers; // The answers that the arguments name, read into a copy.
mod loading; // A copy from its data file and its side file.
mod saving; // A copy into its data file and its side file.
mod state; // What a copy holds, and the request for what it lacks.

use crate::answers::take_arguments;
use crate::loading::load_copy;
use crate::saving::save_copy;
use crate::state::{Done, Held, tell};
use copy_bytes::sizes::RUNS_SIZE;
use numerals::bounded::bounded;
use numerals::digits::all_digits;
use program_io::arguments::{argument, argument_count, do_fit, word};
use program_io::console::say;
use program_io::files::{MAX_REPLACED, MAX_STORED, room};
use program_io::texts::part;
use std::rt::{Env, Files};

fn fetch(
    rt: &(impl Env + Files + Print),
    held: &mut Held,
    piece: usize,
    stored: &[u8],
    side: &[u8],
) {
    let Some(start) = load_copy(rt, held, stored, side) else {
        return;
    };
    if !tell(rt, start, held) {
        return;
    }
    take_arguments(rt, held, piece);
    save_copy(rt, held, stored, side, start == Done::Resumed);
}

// The side file can be replaced beside the data file: the name of the new one fits a path, and the data file is neither of the two.
fn are_names(stored: &[u8], side: &[u8]) -> bool {
    if side.is_empty() || MAX_REPLACED < side.len() {
        return false;
    }
    match stored.strip_prefix(side) {
        Some(behind) => !behind.is_empty() && behind != b".new".as_slice(),
        None => true,
    }
}

// The files that the arguments name.
fn fetch_files(rt: &(impl Env + Files + Print), tag: &[u8], buffer: &mut [u8], piece: usize) {
    let mut data_word = word();
    let mut side_word = word();
    let stored = argument(rt, 4, &mut data_word).unwrap_or_default();
    let side = argument(rt, 5, &mut side_word).unwrap_or_default();
    if !are_names(stored, side) {
        return say(
            rt,
            b"SIDE is a name of 1 to 4091 bytes, and DATA is neither SIDE nor SIDE.new\n",
        );
    }
    let mut runs = [0u8; RUNS_SIZE];
    let mut held = Held {
        tag,
        runs: &mut runs,
        buffer,
    };
    fetch(rt, &mut held, piece, stored, side);
}

// The number that the i-th argument is, none where it is none or over a limit.
fn argument_number(rt: &impl Env, i: usize, limit: usize) -> Option<usize> {
    let mut buffer = word();
    let word = argument(rt, i, &mut buffer)?;
    if word.is_empty() || !all_digits(word) {
        return None;
    }
    bounded(word, limit)
}

fn fetch_words(rt: &(impl Env + Files + Print), n: usize, piece: usize) {
    let mut word = word();
    let mut room = room();
    let tag = argument(rt, 1, &mut word).unwrap_or_default();
    if let Some(buffer) = room.get_mut(..n) {
        fetch_files(rt, tag, buffer, piece);
    }
}

// The program, by its arguments.
pub fn run(rt: &(impl Env + Files + Print)) {
    if argument_count(rt) < 6 {
        return say(rt, b"usage: TAG LENGTH PIECE DATA SIDE [ANSWER ..]\n");
    }
    if !do_fit(rt, 5) {
        return say(rt, b"an argument is longer than 4096 bytes\n");
    }
    let n = argument_number(rt, 2, MAX_STORED);
    let piece = argument_number(rt, 3, usize::MAX);
    match (n, piece) {
        (Some(n), Some(piece)) if piece != 0 => fetch_words(rt, n, piece),
        _ => say(
            rt,
            b"LENGTH is a number of at most 1048576, PIECE one of at least 1\n",
        ),
    }
}
