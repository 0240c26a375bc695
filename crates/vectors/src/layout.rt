// How a case reads: six numbers at fixed places, then fields, which have numbers.
use octets::numbers::number_at;
use rules_server::Limits;
use rules_tablet::Copy;
use std::fmt;

// What a case tries, by its number: the server end, the request, the reader, an answer of a real server, a date, saving, loading.
pub const KIND: usize = 8;

#[derive(Clone, Copy, Debug, PartialEq, Eq)]
pub enum Kind {
    Answer,
    Request,
    Reader,
    Corpus,
    Date,
    Save,
    Load,
    // any other number: the reader, by the whole answer alone
    Whole,
}

pub fn kind_of(case: &[u8]) -> Kind {
    match number_at(case, KIND) {
        0 => Kind::Answer,
        1 => Kind::Request,
        2 => Kind::Reader,
        3 => Kind::Corpus,
        4 => Kind::Date,
        5 => Kind::Save,
        6 => Kind::Load,
        _ => Kind::Whole,
    }
}

// The number of what has to differ in a case that is wrong on purpose, 0 in any other.
pub const WRONG: usize = 24;
// The length of the buffer.
pub const ROOM: usize = 40;
// Whether there is a Range, whether there is an If-Range.
pub const HAS_RANGE: usize = 56;

pub const HAS_IF_RANGE: usize = 72;
// The length of the copy, and of its tag.
pub const LENGTH: usize = 56;

pub const TAG_LEN: usize = 72;

// The file that an answer is for, by its number among the list's.
pub const NUMBER: usize = 88;

pub const NAME: usize = 6;
// The front of the buffer before, all behind it being UNTOUCHED; what is expected in numbers; the front of the buffer at the end.
pub const BEFORE: usize = 7;

pub const SAID: usize = 8;

pub const AFTER: usize = 9;

pub const METHOD: usize = 10;

pub const RANGE: usize = 11;

pub const IF_RANGE: usize = 12;

pub const FILE: usize = 13;

pub const FILE_TAG: usize = 14;

pub const MEDIA: usize = 15;

pub const BOUNDARY: usize = 16;

// Whether there is a Last-Modified, and where among these numbers its time, whether it is strong, and the reference time stand.
pub const TIMES: usize = 17;

pub const MODIFIED: usize = 8;

pub const STRONG: usize = 24;

pub const REFERENCE: usize = 32;

// The value that may be a date, and its reference time.
pub const VALUE: usize = 10;

pub const VALUE_REFERENCE: usize = 11;

// The copy's tag and runs, the answer, and where its pieces end.
pub const TAG: usize = 10;

pub const RUNS: usize = 11;

pub const ANSWER: usize = 12;

pub const ENDS: usize = 13;

// The file that is loaded.
pub const SAVED_FILE: usize = 12;

// The record of the reader that a case begins with, where it has one: its own numbers, its line, tag and boundary, the head's numbers and the part's.
pub const RECORD: usize = 14;

pub const LINE: usize = 15;

pub const READER_TAG: usize = 16;

pub const READER_BOUNDARY: usize = 17;

pub const HEAD: usize = 18;

pub const PART: usize = 19;

pub const UNTOUCHED: u8 = 0xA5;

// What may differ.
#[derive(Clone, Copy, Debug, PartialEq, Eq)]
pub enum Difference {
    Says,
    Leaves,
    ByteByByte,
    InTwo,
    Unfit,
}

impl Difference {
    // Its number in a case that is wrong on purpose.
    pub fn number(self) -> usize {
        match self {
            Difference::Says => 1,
            Difference::Leaves => 2,
            Difference::ByteByByte => 3,
            Difference::InTwo => 4,
            Difference::Unfit => 5,
        }
    }
}

impl fmt::Display for Difference {
    fn fmt<W: fmt::Write>(&self, f: &mut fmt::Formatter<W>) -> fmt::Result {
        f.write_str(match self {
            Difference::Says => "it says something else",
            Difference::Leaves => "it leaves other bytes",
            Difference::ByteByByte => "byte by byte it differs",
            Difference::InTwo => "cut in two it differs",
            Difference::Unfit => "a case that does not fit",
        })
    }
}

// What feeding says, in bytes: taken in all and the last report; the copy's tag length, length, whether it is complete, its tag, and its runs as a list. Behind
// that, taken and report of each piece. Loading says the refusal and the length saved anew in place of the first two.
pub const STATE: usize = 32;

pub const LIST: usize = STATE + 8 + Limits::MAX_TAG;

pub const FIRST_RUN: usize = LIST + 8;

pub const SAID_SIZE: usize = FIRST_RUN + 16 * Copy::MAX_RUNS;
