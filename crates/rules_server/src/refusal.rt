// Why an end refuses, each refusal under its number, with its text.
ghost use Rattle.std.specs.Prelude.{◌≡◌};
ghost use Rattle.rules_server.specs.RefusalNumbers.{refusal_number, NumberRead};

use std::error::Error;
use std::fmt;

// The refusals of documents 01 and 02, of both ends. The limits in their texts are those of `Limits`, `Copy` and `Reader`.
#[derive(Clone, Copy, Debug, PartialEq, Eq)]
pub enum Refusal {
    // 1: the method is neither GET nor HEAD
    Method,
    // 2: the file is longer than `MAX_FILE`
    FileLength,
    // 3: the file's tag is not empty and not a tag, or longer than `MAX_TAG`
    FileTag,
    // 4: the type may not stand in an answer
    MediaType,
    // 5: the boundary may not stand in an answer
    Boundary,
    // 6: a part's data holds the delimiter of the multipart
    Delimiter,
    // 7: the answer is longer than the output buffer
    AnswerRoom,
    // 9: a time lies outside 1970 to 9999
    Time,
    // 11: the head of an answer breaks a rule
    Head,
    // 12: its status is not 200, 206 or 416
    Status,
    // 13: it is without the copy's tag, or has another length
    Foreign,
    // 14: its Content-Range is wrong
    ContentRange,
    // 15: its multipart structure is broken, or Content-Length ends before the closing mark
    Multipart,
    // 16: storing the byte would make more than `MAX_RUNS` runs
    ManyRuns,
    // 17: the byte differs from the held one
    Differs,
    // 18: a request is wanted, and nothing is missing
    NothingMissing,
    // 19: a copy cannot be opened so, or a record or a buffer breaks its rule
    Record,
    // 20: the request, or the saved copy, is longer than its buffer
    Room,
    // 22: a saved copy does not begin with its mark
    Mark,
    // 23: its version is unknown
    Version,
    // 24: its tag is too long or not strong
    SavedTag,
    // 25: its length is over `MAX_FILE`
    SavedLength,
    // 26: it has more runs than its version allows
    RunCount,
    // 27: a run of it ends before it begins, or does not lie behind the run before it with a gap
    RunOrder,
    // 28: a run of it does not end before its length
    RunEnd,
    // 29: it is cut short
    CutShort,
    // 30: bytes follow its last run
    Trailing,
}

// A number that no refusal has.
#[derive(Clone, Copy, Debug, PartialEq, Eq)]
pub struct NoRefusal(pub usize);

impl Refusal {
    // Its number.
    pub fn number(self) -> usize
        ensures { result ≡ refusal_number self }
    {
        match self {
            Refusal::Method => 1,
            Refusal::FileLength => 2,
            Refusal::FileTag => 3,
            Refusal::MediaType => 4,
            Refusal::Boundary => 5,
            Refusal::Delimiter => 6,
            Refusal::AnswerRoom => 7,
            Refusal::Time => 9,
            Refusal::Head => 11,
            Refusal::Status => 12,
            Refusal::Foreign => 13,
            Refusal::ContentRange => 14,
            Refusal::Multipart => 15,
            Refusal::ManyRuns => 16,
            Refusal::Differs => 17,
            Refusal::NothingMissing => 18,
            Refusal::Record => 19,
            Refusal::Room => 20,
            Refusal::Mark => 22,
            Refusal::Version => 23,
            Refusal::SavedTag => 24,
            Refusal::SavedLength => 25,
            Refusal::RunCount => 26,
            Refusal::RunOrder => 27,
            Refusal::RunEnd => 28,
            Refusal::CutShort => 29,
            Refusal::Trailing => 30,
        }
    }
}

impl TryFrom<usize> for Refusal {
    type Error = NoRefusal;

    ghost try_from_gives = { NumberRead };

    fn try_from(number: usize) -> Result<Self, NoRefusal> {
        match number {
            1 => Ok(Refusal::Method),
            2 => Ok(Refusal::FileLength),
            3 => Ok(Refusal::FileTag),
            4 => Ok(Refusal::MediaType),
            5 => Ok(Refusal::Boundary),
            6 => Ok(Refusal::Delimiter),
            7 => Ok(Refusal::AnswerRoom),
            9 => Ok(Refusal::Time),
            11 => Ok(Refusal::Head),
            12 => Ok(Refusal::Status),
            13 => Ok(Refusal::Foreign),
            14 => Ok(Refusal::ContentRange),
            15 => Ok(Refusal::Multipart),
            16 => Ok(Refusal::ManyRuns),
            17 => Ok(Refusal::Differs),
            18 => Ok(Refusal::NothingMissing),
            19 => Ok(Refusal::Record),
            20 => Ok(Refusal::Room),
            22 => Ok(Refusal::Mark),
            23 => Ok(Refusal::Version),
            24 => Ok(Refusal::SavedTag),
            25 => Ok(Refusal::SavedLength),
            26 => Ok(Refusal::RunCount),
            27 => Ok(Refusal::RunOrder),
            28 => Ok(Refusal::RunEnd),
            29 => Ok(Refusal::CutShort),
            30 => Ok(Refusal::Trailing),
            _ => Err(NoRefusal(number)),
        }
    }
}

impl fmt::Display for Refusal {
    fn fmt<W: fmt::Write>(&self, f: &mut fmt::Formatter<W>) -> fmt::Result {
        f.write_str(match self {
            Refusal::Method => "method is neither GET nor HEAD",
            Refusal::FileLength => "file over 1,099,511,627,776 bytes",
            Refusal::FileTag => "file tag not empty and not a tag, or over 64 bytes",
            Refusal::MediaType =>
                "type over 127 bytes, outside 0x20 to 0x7E, with a space at an end, or being multipart/byteranges (any case) before any ;, trimmed",
            Refusal::Boundary => "boundary not 1 to 70 letters, digits, - or _",
            Refusal::Delimiter =>
                "multipart, and CR LF -- boundary occurs in CR LF followed by some part's data",
            Refusal::AnswerRoom => "answer longer than the output buffer",
            Refusal::Time => "a time outside 1970 to 9999",
            Refusal::Head => "head breaks a rule",
            Refusal::Status => "status not 200, 206 or 416",
            Refusal::Foreign => "without the copy's tag, or a length unlike the copy's",
            Refusal::ContentRange => "Content-Range wrong",
            Refusal::Multipart =>
                "multipart structure broken, or Content-Length ends before the closing mark",
            Refusal::ManyRuns => "storing the byte would make more than 128 runs",
            Refusal::Differs => "byte differs from the held one",
            Refusal::NothingMissing => "request wanted, nothing missing",
            Refusal::Record =>
                "copy's tag not strong or over 64 bytes, or a record or buffer that breaks its rule",
            Refusal::Room => "request or saved copy longer than its buffer",
            Refusal::Mark => "saved copy without the mark HLD",
            Refusal::Version => "saved copy of an unknown version, neither 1 nor 2",
            Refusal::SavedTag => "saved copy's tag over 64 bytes or not strong",
            Refusal::SavedLength => "saved copy's length over 1,099,511,627,776 bytes",
            Refusal::RunCount =>
                "saved copy with more runs than its version allows: 128, or 32 under version 1",
            Refusal::RunOrder =>
                "saved copy with a run that ends before it begins, or that does not lie behind the run before it with a gap",
            Refusal::RunEnd => "saved copy with a run past the copy's length",
            Refusal::CutShort => "saved copy cut short",
            Refusal::Trailing => "saved copy with bytes behind its end",
        })
    }
}

impl fmt::Display for NoRefusal {
    fn fmt<W: fmt::Write>(&self, f: &mut fmt::Formatter<W>) -> fmt::Result {
        f.write_str("no refusal")
    }
}

impl Error for Refusal {}

impl Error for NoRefusal {}
