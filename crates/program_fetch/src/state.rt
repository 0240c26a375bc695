// What a copy holds, and the request for what it lacks.
use baxoodhiir::baxoodhiir_request;
use octets::numbers::number_at;
use program_io::arguments::word;
use program_io::console::{Refused, about, say, say_pieces, say_runs};
use program_io::packed::runs_of;
use program_io::sums::sum;
use program_io::texts::part;
use rules_server::Refusal;
use std::fmt;

// A copy: its tag, a list of its runs in bytes, and its buffer, which is of its length.
#[derive(Drop)]
pub struct Held<'a> {
    pub tag: &'a [u8],
    pub runs: &'a mut [u8],
    pub buffer: &'a mut [u8],
}

// How many positions lie from first to last.
fn span(first: usize, last: usize) -> usize {
    if last < first {
        return 0;
    }
    sum(last - first, 1)
}

// How many positions lie in the runs of a list.
pub fn total(list: &[u8]) -> usize {
    let mut n = 0;
    for run in runs_of(list) {
        n = sum(n, span(number_at(run, 0), number_at(run, 8)));
    }
    n
}

// What was done with a copy before it is told of: it was opened, or resumed; or an answer was read, of which a line has told.
#[derive(Clone, Copy, Debug, PartialEq, Eq)]
pub enum Done {
    Opened,
    Resumed,
    Read,
}

impl fmt::Display for Done {
    fn fmt<W: fmt::Write>(&self, f: &mut fmt::Formatter<W>) -> fmt::Result {
        f.write_str(match self {
            Done::Opened => "opened",
            Done::Resumed => "resumed",
            Done::Read => "",
        })
    }
}

// The request for what a copy lacks, in a buffer; or why there is none.
fn request<'a>(
    tag: &[u8],
    length: usize,
    runs: &[u8],
    room: &'a mut [u8],
) -> Result<&'a [u8], Refused> {
    let mut n = 0;
    match baxoodhiir_request(tag, length, runs, room, &mut n) {
        0 => Ok(part(room, 0, n)),
        number => Err(Refused(number)),
    }
}

// How much is held, and which positions.
fn say_held(rt: &impl Print, length: usize, runs: &[u8]) {
    let held = total(runs);
    say_pieces(rt, format_args!("  held {held} of {length} bytes:"));
    say_runs(rt, runs);
}

// The request's lines, or that nothing is missing, or why there is none.
fn say_request(rt: &impl Print, asked: Result<&[u8], Refused>) {
    match asked {
        Ok(request) => {
            say(rt, b"; not complete\n  next request:\n");
            say(rt, request);
        }
        Err(refused) if refused.is(Refusal::NothingMissing) => {
            say(rt, b"; complete\n  nothing is missing\n");
        }
        Err(refused) => {
            say(rt, b"; not complete\n");
            about(rt, b"  no request", refused);
        }
    }
}

// What a person wants to know of a copy, behind what was done; or that it is none. Whether it is one.
pub fn tell(rt: &impl Print, done: Done, held: &Held) -> bool {
    let n = held.buffer.len();
    let mut room = word();
    let asked = request(held.tag, n, held.runs, &mut room);
    if let Err(refused) = asked {
        if refused.is(Refusal::Record) {
            say_pieces(rt, refused);
            say(rt, b"\n");
            return false;
        }
    }
    say_pieces(rt, done);
    say(rt, b"\n");
    say_held(rt, n, held.runs);
    say_request(rt, asked);
    true
}
