// Answers of real servers: what is held must be the bytes of the file, the rest of the buffer as it was, and pieces must come to the same as the whole.
use crate::comparing::{compare_pieces, say_name};
use crate::layout::{ANSWER, Difference, LIST, NUMBER, SAID_SIZE, STATE, UNTOUCHED};
use octets::numbers::number_at;
use octets::overwrites::overwrite;
use program_io::console::{say, say_report, say_runs};
use program_io::fills::fill;
use program_io::packed::{item, runs_of};
use program_io::sums::sum;
use program_io::texts::part;

// How many bytes lie between the places where an answer is cut in two.
const GAP: u8 = 60;

// The longest buffer of such an answer.
const KEPT: usize = 65536;

// The file's bytes in the runs that are said to be held, all others untouched.
fn hold(kept: &mut [u8], said: &[u8], file: &[u8]) {
    fill(kept, UNTOUCHED);
    for run in runs_of(part(said, LIST, said.len())) {
        let first = number_at(run, 0);
        let end = sum(number_at(run, 8), 1);
        overwrite(kept, first, part(file, first, end));
    }
}

// What an answer gave: taken and report, the runs, whether the copy is complete.
fn say_given(rt: &impl Print, name: &[u8], case: &[u8], said: &[u8]) {
    say_name(rt, name, case);
    say(rt, b": ");
    say_report(
        rt,
        item(case, ANSWER).len(),
        number_at(said, 0),
        number_at(said, 8),
    );
    say(rt, b"; held");
    say_runs(rt, part(said, LIST, SAID_SIZE));
    match number_at(said, STATE) {
        0 => say(rt, b", complete"),
        1 => say(rt, b", not complete"),
        2 => say(rt, b", a broken record"),
        _ => {}
    }
}

// The buffer holds what it should, and it is said.
fn is_held(rt: &impl Print, buffer: &[u8], held: &[u8]) -> bool {
    if buffer == held {
        say(rt, b", bytes right");
        return true;
    }
    say(rt, b", a byte is wrong");
    false
}

// The end of the line: whether the held bytes are right, and how the answer in other pieces compares with the whole.
fn compare(
    rt: &impl Print,
    case: &[u8],
    held: &[u8],
    ending: &[u8],
    buffer: &mut [u8],
) -> Option<Difference> {
    let right = is_held(rt, buffer, held);
    let what = compare_pieces(case, held, ending, GAP, buffer);
    let _ = match what {
        Some(difference) => print!(rt; "; {difference}"),
        None => rt.print("; pieces the same"),
    };
    say(rt, b"\n");
    if right {
        what
    } else {
        Some(Difference::Leaves)
    }
}

// A line for the answer; what differs.
pub fn difference(
    rt: &impl Print,
    name: &[u8],
    files: &[u8],
    case: &[u8],
    said: &[u8],
    buffer: &mut [u8],
) -> Option<Difference> {
    let mut kept = [0u8; KEPT];
    say_given(rt, name, case, said);
    hold(&mut kept, said, item(files, number_at(case, NUMBER)));
    let held = part(&kept, 0, buffer.len());
    compare(rt, case, held, part(said, 0, SAID_SIZE), buffer)
}
