// The server end's answer, a date by itself, and the request for what a copy lacks.
use crate::feeding::{copy_of, tell, tell_two};
use crate::layout::{
    BOUNDARY, FILE, FILE_TAG, HAS_IF_RANGE, HAS_RANGE, IF_RANGE, MEDIA, METHOD, MODIFIED, RANGE,
    REFERENCE, STRONG, TIMES, VALUE, VALUE_REFERENCE,
};
use baxoodhiir::baxoodhiir_answer;
use copy_request::request;
use dates::read_date;
use octets::numbers::number_at;
use program_io::packed::item;
use program_io::sums::sum;
use program_io::times::{seconds, size};

// The time at a place: 1 where it is before 1970, and its size.
fn time_at(v: &[u8], at: usize) -> i64 {
    seconds(number_at(v, at) == 1, number_at(v, sum(at, 8)))
}

// The status or the refusal, the reason and the length.
pub fn answer(case: &[u8], buffer: &mut [u8], said: &mut [u8]) {
    let times = item(case, TIMES);
    let mut reason = 0;
    let mut length = 0;
    let says = baxoodhiir_answer(
        item(case, METHOD),
        number_at(case, HAS_RANGE) == 1,
        item(case, RANGE),
        number_at(case, HAS_IF_RANGE) == 1,
        item(case, IF_RANGE),
        item(case, FILE),
        item(case, FILE_TAG),
        item(case, MEDIA),
        item(case, BOUNDARY),
        number_at(times, 0) == 1,
        time_at(times, MODIFIED),
        number_at(times, STRONG) == 1,
        time_at(times, REFERENCE),
        buffer,
        &mut reason,
        &mut length,
    );
    tell_two(said, 0, says, reason);
    tell(said, 16, length);
}

// 1 for a time from 1970 on, 2 for one before it, and its size.
fn tell_time(said: &mut [u8], t: i64) {
    if t < 0 {
        return tell_two(said, 0, 2, size(t));
    }
    tell_two(said, 0, 1, size(t));
}

// The second that a value names as a date, or 0.
pub fn date(case: &[u8], said: &mut [u8]) {
    let reference = time_at(item(case, VALUE_REFERENCE), 0);
    match read_date(item(case, VALUE), reference) {
        Some(t) => tell_time(said, t),
        None => tell(said, 0, 0),
    }
}

// The refusal, or 0 and the length.
pub fn ask(case: &[u8], buffer: &mut [u8], said: &mut [u8]) {
    match request(copy_of(case), buffer) {
        Ok(n) => tell(said, 8, n),
        Err(refusal) => tell(said, 0, refusal.number()),
    }
}
