// What programs write to standard output. What comes there no contract can say, and none of the functions that write has a result.
ghost use Rattle.std.specs.Prelude.{◌≡◌, ◌==◌};
ghost use Rattle.rules_server.specs.RefusalNumbers.{refusal_number};

use crate::packed::runs_of;
use octets::numbers::number_at;
use rules_server::Refusal;
use std::fmt;
use std::fmt::Write;

pub fn say(rt: &impl Print, text: &[u8]) {
    let _ = rt.write_all(text);
}

// Standard output as a place for text: a piece that cannot be written is left out, and those behind it are still written.
#[derive(Drop)]
struct Console<'a, R>(&'a R);

impl<R: Print> fmt::Write for Console<'_, R> {
    fn write_str(&mut self, text: &str) -> fmt::Result {
        say(self.0, text.as_bytes());
        Ok(())
    }
}

// A value, each piece of its text by a write of its own.
pub fn say_pieces<D: fmt::Display + Drop>(rt: &impl Print, value: D) {
    let _ = Console(rt).write(value);
}

// A line about a file.
pub fn about<D: fmt::Display + Drop>(rt: &impl Print, name: &[u8], what: D) {
    say(rt, name);
    say(rt, b": ");
    say_pieces(rt, what);
    say(rt, b"\n");
}

// A refusal by its number, printed with what the table of refusals says of it.
#[derive(Clone, Copy, Debug, PartialEq, Eq)]
pub struct Refused(pub usize);

impl Refused {
    // It is this one.
    pub fn is(self, refusal: Refusal) -> bool
        ensures { result ≡ (self.0 == refusal_number refusal) }
    {
        self.0 == refusal.number()
    }
}

impl fmt::Display for Refused {
    fn fmt<W: fmt::Write>(&self, f: &mut fmt::Formatter<W>) -> fmt::Result {
        let number = self.0;
        match Refusal::try_from(number) {
            Ok(refusal) => write!(f, "refused: {number}, {refusal}"),
            Err(none) => write!(f, "refused: {number}, {none}"),
        }
    }
}

// How reading an answer of so many bytes went. The report is a number, as the functions for C give it: 0 where more is wanted, 100 of a finished answer, else
// that of a refusal.
pub fn say_report(rt: &impl Print, length: usize, taken: usize, report: usize) {
    say_pieces(rt, format_args!("{taken} of {length} bytes taken, "));
    match report {
        0 => say(rt, b"more is wanted"),
        100 => say(rt, b"finished"),
        number => say_pieces(rt, Refused(number)),
    }
}

// A run of a list in bytes: its first and its last position.
fn say_run(rt: &impl Print, run: &[u8]) {
    let first = number_at(run, 0);
    let last = number_at(run, 8);
    say_pieces(rt, format_args!(" {first}-{last}"));
}

// The runs of a list in bytes, or that there is none.
pub fn say_runs(rt: &impl Print, list: &[u8]) {
    let count = number_at(list, 0);
    if count == 0 {
        say(rt, b" none");
    }
    for run in runs_of(list) {
        say_run(rt, run);
    }
}
