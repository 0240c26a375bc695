// Answers one request for a stored file: METHOD FILE TAG TYPE BOUNDARY, and behind them in any order
// [range=VALUE] [if-range=VALUE] [last-modified=SECONDS] [strong | weak] [now=SECONDS]
// An empty TAG or TYPE is none. `range=` with nothing behind it is a Range that is there and empty.
// SECONDS are a decimal number, counted from 1970, before it with a `-`. A Last-Modified is weak unless `strong` is said. The reference time is what `now=`
// says, else the system's clock.
// Writes the answer's bytes to standard output, or one line that says why there is no answer.
#![tactic(auto)]

mod options; // The arguments behind the five words: which option each is, and the times that they say.

use options::{OptionName, value_of};
use program_io::arguments::{argument, argument_count, do_fit, word};
use program_io::console::{Refused, about, say, say_pieces};
use program_io::files::{answer_room, load, room};
use program_io::texts::part;
use rules_server::{Request, Resource};
use std::rt::{Clock, Env, Files};

// The answer's bytes, or why there is none.
fn answer(rt: &impl Print, request: &Request, resource: &Resource) {
    let mut out = answer_room();
    match server::answer(request, resource, &mut out) {
        Ok(answered) => say(rt, part(&out, 0, answered.length)),
        Err(refusal) => {
            say_pieces(rt, Refused(refusal.number()));
            say(rt, b"\n");
        }
    }
}

// The answer for a file, with what the arguments say of it.
fn respond(
    rt: &(impl Env + Print + Clock),
    given: usize,
    range: Option<&[u8]>,
    if_range: Option<&[u8]>,
    file: &[u8],
) {
    let mut method = word();
    let mut tag = word();
    let mut media = word();
    let mut boundary = word();
    let request = Request {
        method: argument(rt, 1, &mut method).unwrap_or_default(),
        range,
        if_range,
    };
    let resource = Resource {
        file,
        tag: argument(rt, 3, &mut tag).unwrap_or_default(),
        media: argument(rt, 4, &mut media).unwrap_or_default(),
        boundary: argument(rt, 5, &mut boundary).unwrap_or_default(),
        modified: options::modified(rt, given),
        reference: options::reference(rt, given),
    };
    answer(rt, &request, &resource);
}

fn serve_file(
    rt: &(impl Env + Files + Print + Clock),
    given: usize,
    range: Option<&[u8]>,
    if_range: Option<&[u8]>,
) {
    let mut word = word();
    let name = argument(rt, 2, &mut word).unwrap_or_default();
    let mut file = room();
    match load(rt, name, &mut file) {
        Ok(n) => respond(rt, given, range, if_range, part(&file, 0, n)),
        Err(e) => about(rt, name, e),
    }
}

// Answers for the file, with what the arguments say of the request. Linux hands a program no argument of more than 131,072 bytes, and a Range or an If-Range
// may have so many.
fn serve(rt: &(impl Env + Files + Print + Clock), given: usize) {
    let mut range_room = room();
    let mut if_range_room = room();
    let range = value_of(rt, OptionName::Range, given, &mut range_room);
    let if_range = value_of(rt, OptionName::IfRange, given, &mut if_range_room);
    serve_file(rt, given, range, if_range);
}

fn main(rt: HostRuntime) {
    let given = argument_count(&rt);
    if !options::are_options(&rt, given) {
        return say(
            &rt,
            b"usage: serve METHOD FILE TAG TYPE BOUNDARY [range=VALUE] [if-range=VALUE] [last-modified=SECONDS] [strong | weak] [now=SECONDS]\n",
        );
    }
    if !do_fit(&rt, 5) {
        return say(&rt, b"an argument is longer than 4096 bytes\n");
    }
    serve(&rt, given);
}
