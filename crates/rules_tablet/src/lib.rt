// The tablet end's rules as definitions (specs/), with the records and enums that both the definitions and the code name.
#![tactic(auto)]

ghost use Rattle.std.specs.Prelude.{◌≡◌};
ghost use Rattle.rules_tablet.specs.Copies.{fresh_copy};
ghost use Rattle.rules_tablet.specs.Readers.{fresh_reader};

use rules_server::{Limits, Run};

// What is held of a file: its tag (the first tag_len bytes), its length, and the held positions as maximal runs (the first count of runs), ascending. What a
// record has to satisfy: docs/RECORDS.md.
// Arrays with their counts, and no invariant: there is no heap, and a caller may hold any record; of one that breaks its rule `copy::complete`,
// `copy::holes::holes` and `reader::feed` say 19.
#[derive(Clone, Copy)]
pub struct Copy {
    pub tag: [u8; Limits::MAX_TAG],
    pub tag_len: usize,
    pub length: usize,
    pub runs: [Run; Copy::MAX_RUNS],
    pub count: usize,
}

impl Copy {
    // The most separate runs of held positions.
    pub const MAX_RUNS: usize = 128;
    // The most holes that one request asks for.
    pub const MAX_HOLES: usize = 64;

    // A fresh copy: no run held, under the tag `""` and the length 0. Opening fills in another tag and length.
    pub fn fresh() -> Copy
        ensures { result ≡ fresh_copy }
    {
        let mut tag = [0u8; Limits::MAX_TAG];
        tag[0] = b'"';
        tag[1] = b'"';
        Copy {
            tag,
            tag_len: 2,
            length: 0,
            runs: [Run { first: 0, last: 0 }; Copy::MAX_RUNS],
            count: 0,
        }
    }
}

// Where a reader stands in an answer. A refusal is held by its number: a record may hold any number, and the reader's rule says which it may (AnchorRules).
#[derive(Clone, Copy)]
pub enum Stage {
    // the status line; a field line of the head
    Status,
    Fields,
    // the body of a 200 or a plain 206: the next byte's position
    Plain(usize),
    // the body of a 416
    Skip,
    // a multipart: so many empty lines passed; behind the CR of one
    Preamble(usize),
    PreambleEnd(usize),
    // so many bytes of CR LF `--` boundary seen, before the first part; behind a part's data
    FirstDelimiter(usize),
    Delimiter(usize),
    // behind `--` boundary, before the first part; behind a part
    AfterFirstDelimiter,
    AfterDelimiter,
    // behind the CR of a `--` boundary line; behind `--` boundary `-`
    PartBegin,
    Closing,
    // a line of a part
    PartLine,
    // a part's data: the next byte's position, and how many bytes are still to come
    Data(usize, usize),
    // behind the closing mark
    Epilogue,
    // the whole answer was read; refused by a number
    Finished,
    Refused(usize),
}

// What a call says of an answer: more is wanted, the whole answer was read, or refused by the number of the stage.
#[derive(Clone, Copy)]
pub enum Report {
    More,
    Finished,
    Refused(usize),
}

// What a Content-Range field says: absent; of another form or with a number too large; first and last; first, last and the stated length.
#[derive(Clone, Copy)]
pub enum RangeField {
    Absent,
    Wrong,
    Span(usize, usize),
    Of(usize, usize, usize),
}

// What a Content-Type field says: absent; not multipart/byteranges; multipart/byteranges with a boundary; multipart/byteranges without a right one.
#[derive(Clone, Copy)]
pub enum TypeField {
    Absent,
    Other,
    Multipart,
    Broken,
}

// What the head's lines said so far.
#[derive(Clone, Copy)]
pub struct Head {
    pub status: usize,
    pub lines: usize,
    // whether there was an ETag; its bytes stand in the reader's array, and an ETag may be empty
    pub has_tag: bool,
    pub media: TypeField,
    pub range: RangeField,
    // the number of a Content-Length field
    pub size: Option<usize>,
}

// What a part's lines said so far.
#[derive(Clone, Copy)]
pub struct PartHead {
    pub lines: usize,
    pub range: RangeField,
}

// Where the body ends. Counted by Content-Length: so many of its bytes come after the next one.
#[derive(Clone, Copy)]
pub struct Framing {
    pub after: usize,
}

// A reader of one answer. What a record has to satisfy: docs/RECORDS.md. Arrays with lengths beside them: there is no heap, and `reader::feed` answers 19 to a
// record that breaks its rule, so a caller may hold any.
#[derive(Clone, Copy)]
pub struct Reader {
    pub stage: Stage,
    // where the body ends
    pub framing: Framing,
    // the line so far, and whether its CR was seen
    pub line: [u8; Reader::MAX_LINE],
    pub line_len: usize,
    pub cr: bool,
    pub head: Head,
    pub part: PartHead,
    // the value of the ETag field
    pub tag: [u8; Limits::MAX_TAG],
    pub tag_len: usize,
    // the boundary of a multipart
    pub boundary: [u8; Limits::MAX_BOUNDARY],
    pub boundary_len: usize,
}

impl Reader {
    // The most bytes of a line before CR LF.
    pub const MAX_LINE: usize = 512;
    // The most field lines of a head.
    pub const MAX_FIELDS: usize = 64;
    // The most lines of a part.
    pub const MAX_PART_LINES: usize = 16;
    // The most empty lines before the first part.
    pub const MAX_PREAMBLE: usize = 4;
    // The largest Content-Length.
    pub const MAX_SIZE: usize = 2199023255552;

    // A fresh reader: nothing read.
    pub fn fresh() -> Reader
        ensures { result ≡ fresh_reader }
    {
        Reader {
            stage: Stage::Status,
            framing: Framing { after: 0 },
            line: [0u8; Reader::MAX_LINE],
            line_len: 0,
            cr: false,
            head: Head {
                status: 0,
                lines: 0,
                has_tag: false,
                media: TypeField::Absent,
                range: RangeField::Absent,
                size: None,
            },
            part: PartHead {
                lines: 0,
                range: RangeField::Absent,
            },
            tag: [0u8; Limits::MAX_TAG],
            tag_len: 0,
            boundary: [0u8; Limits::MAX_BOUNDARY],
            boundary_len: 0,
        }
    }
}
