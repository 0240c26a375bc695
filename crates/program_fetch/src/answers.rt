// The answers that the arguments name, read into a copy.
use crate::state::{Done, Held, tell};
use baxoodhiir::baxoodhiir_read;
use program_io::arguments::{argument, argument_count, word};
use program_io::console::{say, say_report};
use program_io::files::{ReadError, answer_room, load};
use program_io::texts::part;
use std::rt::{Env, Files};

// The answer in pieces, to a fresh reader, and how it went. A copy stays one under any answer, so that what is told of it begins by ending the line.
fn take_bytes(rt: &impl Print, held: &mut Held, piece: usize, answer: &[u8]) {
    let n = held.buffer.len();
    let mut taken = 0;
    let report = baxoodhiir_read(
        held.tag,
        n,
        held.runs,
        held.buffer,
        answer,
        piece,
        &mut taken,
    );
    say_report(rt, answer.len(), taken, report);
    tell(rt, Done::Read, held);
}

// The answer in a file.
fn take_file(rt: &(impl Files + Print), held: &mut Held, piece: usize, name: &[u8]) {
    let mut answer = answer_room();
    say(rt, name);
    say(rt, b": ");
    match load(rt, name, &mut answer) {
        Ok(n) => take_bytes(rt, held, piece, part(&answer, 0, n)),
        Err(ReadError::Unreadable) => say(rt, b"cannot be read\n"),
        Err(ReadError::TooLarge) => say(rt, b"longer than 1114112 bytes\n"),
    }
}

// The answer that the i-th argument names.
fn take_argument(rt: &(impl Env + Files + Print), held: &mut Held, piece: usize, i: usize) {
    let mut word = word();
    match argument(rt, i, &mut word) {
        Some(name) => take_file(rt, held, piece, name),
        None => say(rt, b"an argument is longer than 4096 bytes\n"),
    }
}

pub fn take_arguments(rt: &(impl Env + Files + Print), held: &mut Held, piece: usize) {
    for i in 6..argument_count(rt) {
        take_argument(rt, held, piece, i);
    }
}
