// Feeding an answer to a copy.
use crate::layout::{ANSWER, FIRST_RUN, LENGTH, LIST, RUNS, SAID_SIZE, STATE, TAG, TAG_LEN};
use crate::records::reader_of;
use copy_bytes::runs_from;
use copy_bytes::written::{put_eight, put_pair, put_runs};
use octets::numbers::number_at;
use octets::overwrites::overwrite;
use program_io::packed::item;
use program_io::sums::sum;
use program_io::texts::part;
use reader::fed::Fed;
use reader::pieces::feed_pieces;
use rules_server::Limits;
use rules_tablet::{Copy, Report};
use writing::window::Writer;

// What writes at a place.
fn writer_at(out: &mut [u8], at: usize) -> Writer<'_> {
    Writer { out, skip: 0, at }
}

// A number at a place.
pub fn tell(said: &mut [u8], at: usize, n: usize) {
    let mut w = writer_at(said, at);
    put_eight(&mut w, n);
}

// Two numbers, one behind the other.
pub fn tell_two(said: &mut [u8], at: usize, a: usize, b: usize) {
    let mut w = writer_at(said, at);
    put_pair(&mut w, a, b);
}

// The copy of a case. Its record is made of what the case gives, whether or not it keeps its rule.
pub fn copy_of(case: &[u8]) -> Copy {
    let mut tag = [0u8; Limits::MAX_TAG];
    overwrite(&mut tag, 0, item(case, TAG));
    let list = item(case, RUNS);
    Copy {
        tag,
        tag_len: number_at(case, TAG_LEN),
        length: number_at(case, LENGTH),
        runs: runs_from(part(list, 8, list.len())),
        count: number_at(list, 0),
    }
}

fn report_number(report: Report) -> usize {
    match report {
        Report::More => 0,
        Report::Finished => 100,
        Report::Refused(number) => number,
    }
}

fn state_number(copy: Copy) -> usize {
    match copy::complete(copy) {
        Ok(true) => 0,
        Ok(false) => 1,
        Err(_) => 2,
    }
}

// The copy's record.
pub fn tell_copy(said: &mut [u8], copy: Copy) {
    tell_two(said, 16, copy.tag_len, copy.length);
    tell(said, STATE, state_number(copy));
    let tag = copy.tag;
    overwrite(said, STATE + 8, &tag);
    tell(said, LIST, copy.count);
    let mut w = writer_at(said, FIRST_RUN);
    put_runs(&mut w, &copy.runs);
}

// What the k-th call gave: its taken count and report in their place, the bytes taken in all, and the last report.
fn tell_call(said: &mut [u8], k: usize, taken: usize, says: usize) {
    let total = sum(number_at(said, 0), taken);
    tell_two(said, sum(SAID_SIZE, k.saturating_mul(16)), taken, says);
    tell_two(said, 0, total, says);
}

// Feeds the answer of a case in calls that end at given places, each in pieces of `piece` bytes, or as one where that is 0.
pub fn feed(case: &[u8], ends: &[u8], piece: usize, buffer: &mut [u8], said: &mut [u8]) {
    let answer = item(case, ANSWER);
    let mut fed = Fed {
        copy: copy_of(case),
        reader: reader_of(case),
        taken: 0,
        report: Report::More,
    };
    let mut from = 0;
    for (k, end) in ends.chunks(8).enumerate() {
        let to = number_at(end, 0);
        fed = feed_pieces(
            fed.copy,
            fed.reader,
            buffer,
            piece,
            piece,
            part(answer, from, to),
        );
        let report = fed.report;
        tell_call(said, k, fed.taken, report_number(report));
        from = to;
    }
    tell_copy(said, fed.copy);
}
