// The server end of documents 01 and 02 as definitions (specs/), with the types that both the definitions and the code name, and the refusals of both ends.
#![tactic(auto)]

mod refusal; // Why an end refuses, each refusal under its number, with its text.

pub use refusal::{NoRefusal, Refusal};

// The limits, each under one name. specs/Limits.antt has the same names.
#[derive(Clone, Copy)]
pub struct Limits {}

impl Limits {
    // The longest Range value that is read, in bytes after trimming.
    pub const MAX_RANGE: usize = 4096;
    // The most specs that a Range may list.
    pub const MAX_SPECS: usize = 64;
    // The longest file, in bytes.
    pub const MAX_FILE: usize = 1099511627776;
    // The longest entity tag, with its quotes and `W/`.
    pub const MAX_TAG: usize = 64;
    // The longest media type.
    pub const MAX_TYPE: usize = 127;
    // The longest boundary.
    pub const MAX_BOUNDARY: usize = 70;
    // Two parts with fewer bytes than this between them are one.
    pub const MERGE_GAP: usize = 1;
    // The last second of 9999, counted from the first of 1970.
    pub const MAX_TIME: usize = 253402300799;
}

// The positions first to last of a file, both counted.
#[derive(Clone, Copy)]
pub struct Run {
    pub first: usize,
    pub last: usize,
}

// A number in a Range value: its digits are the `len` bytes from `start` on.
#[derive(Clone, Copy)]
pub struct Numeral {
    pub start: usize,
    pub len: usize,
}

// A byte-range-spec or a suffix-byte-range-spec of RFC 7233, section 2.1.
#[derive(Clone, Copy)]
pub enum Spec {
    FirstLast(Numeral, Numeral),
    From(Numeral),
    Suffix(Numeral),
}

// A day of the Gregorian calendar and a time of that day.
#[derive(Clone, Copy, PartialEq, Eq, PartialOrd, Ord)]
pub struct Date {
    pub year: usize,
    pub month: usize,
    pub day: usize,
    pub hour: usize,
    pub minute: usize,
    pub second: usize,
}

// Document 01's reason for a status. Partial is the reason of a 206, for which its table has no word.
#[derive(Clone, Copy)]
pub enum Reason {
    Head,
    None,
    Long,
    Unit,
    Malformed,
    Many,
    ChangedFile,
    Invalid,
    Unsatisfiable,
    Empty,
    Partial,
}

// What the server end says of a request that it answers: the answer's reason, status and length. A refusal stands beside it, in a Result.
#[derive(Clone, Copy)]
pub struct Answered {
    pub reason: Reason,
    pub status: usize,
    pub length: usize,
}

// A file's Last-Modified: its time, in seconds since 1970, and whether RFC 7232, section 2.2.2 makes it strong.
#[derive(Clone, Copy)]
pub struct LastModified {
    pub time: i64,
    pub strong: bool,
}

// What a client asks. An absent Range or If-Range is None, which an empty one is not.
#[derive(Clone, Copy)]
pub struct Request<'a> {
    pub method: &'a [u8],
    pub range: Option<&'a [u8]>,
    pub if_range: Option<&'a [u8]>,
}

// What the server has. An empty tag or type means none; the reference time is that of two-digit years, in seconds since 1970.
#[derive(Clone, Copy)]
pub struct Resource<'a> {
    pub file: &'a [u8],
    pub tag: &'a [u8],
    pub media: &'a [u8],
    pub boundary: &'a [u8],
    pub modified: Option<LastModified>,
    pub reference: i64,
}
