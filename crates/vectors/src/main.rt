// Runs packed lists of cases, one file for each argument, and says which differ from what the list gives. tests/pack makes the lists and says how a case reads.
// A case that is wrong on purpose has to differ: it is said to, and not counted.
#![tactic(auto)]

mod asking; // The server end's answer, a date by itself, and the request for what a copy lacks.
mod comparing; // What a case gives compared with what is expected.
mod corpus; // Answers of real servers.
mod feeding; // Feeding an answer to a copy.
mod layout; // How a case reads.
mod records; // The record of a reader that a case begins with.
mod saving; // A copy's state saved, and a saved file loaded.

use layout::{Difference, Kind, ROOM, WRONG, kind_of};
use octets::numbers::number_at;
use program_io::arguments::{argument, argument_count, word};
use program_io::console::{about, say, say_pieces};
use program_io::files::{load, room};
use program_io::packed::{behind, field};
use program_io::sums::sum;
use program_io::texts::part;
use std::rt::{Env, Files};

// Whether a case differs: it does not; it does; or it has to.
#[derive(Clone, Copy, Debug, PartialEq, Eq)]
enum Judgement {
    Same,
    Differs,
    Wrong,
}

// Says what differs, and whether it has to.
fn judge(rt: &impl Print, name: &[u8], case: &[u8], what: Option<Difference>) -> Judgement {
    let wrong = number_at(case, WRONG);
    if what.is_none() && wrong == 0 {
        return Judgement::Same;
    }
    comparing::say_name(rt, name, case);
    let (_, number) = match what {
        Some(difference) => (print!(rt; ": {difference}"), difference.number()),
        None => (rt.print(": nothing differs"), 0),
    };
    if number == wrong {
        say(rt, b", as it has to\n");
        return Judgement::Wrong;
    }
    say(rt, b"\n");
    Judgement::Differs
}

// What differs in a case.
fn run_case(
    rt: &impl Print,
    name: &[u8],
    files: &[u8],
    case: &[u8],
    buffer: &mut [u8],
) -> Option<Difference> {
    let mut said = word();
    comparing::play(case, buffer, &mut said);
    if kind_of(case) == Kind::Corpus {
        return corpus::difference(rt, name, files, case, &said, buffer);
    }
    comparing::difference(case, &said, buffer)
}

// The case over a buffer of its length.
fn run_within(
    rt: &impl Print,
    name: &[u8],
    files: &[u8],
    case: &[u8],
    room: &mut [u8],
) -> Option<Difference> {
    match room.get_mut(..number_at(case, ROOM)) {
        Some(buffer) => run_case(rt, name, files, case, buffer),
        None => Some(Difference::Unfit),
    }
}

fn say_counts(rt: &impl Print, name: &[u8], cases: usize, differ: usize) {
    say(rt, name);
    say_pieces(rt, format_args!(": {cases} cases, {differ} differ\n"));
}

fn run_cases(rt: &impl Print, name: &[u8], text: &[u8], room: &mut [u8]) {
    let files = field(text, 0);
    let mut at = behind(text, 0);
    let mut cases = 0;
    let mut differ = 0;
    // A loop by hand: where a case begins is no counted number, but the place behind the case before it.
    while at < text.len() {
        let case = field(text, at);
        at = behind(text, at);
        match judge(rt, name, case, run_within(rt, name, files, case, room)) {
            Judgement::Same => cases = sum(cases, 1),
            Judgement::Differs => {
                cases = sum(cases, 1);
                differ = sum(differ, 1);
            }
            Judgement::Wrong => {}
        }
    }
    say_counts(rt, name, cases, differ);
}

fn run_list(rt: &(impl Files + Print), name: &[u8]) {
    let mut text = room();
    let mut buffer = room();
    match load(rt, name, &mut text) {
        Ok(n) => run_cases(rt, name, part(&text, 0, n), &mut buffer),
        Err(e) => about(rt, name, e),
    }
}

fn run_argument(rt: &(impl Env + Files + Print), i: usize) {
    let mut name = word();
    run_list(rt, argument(rt, i, &mut name).unwrap_or_default());
}

fn main(rt: HostRuntime) {
    for i in 1..argument_count(&rt) {
        run_argument(&rt, i);
    }
}
