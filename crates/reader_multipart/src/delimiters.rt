// The bytes between the parts of a multipart: empty lines before the first, the delimiters, and what stands behind a delimiter.
ghost use Rattle.std.specs.Prelude.{◌≡◌, true, cond, ◌++◌, suc, ltb, slice_get};
ghost use Rattle.rules_server.specs.Texts.{crlf};
ghost use Rattle.rules_server.specs.Answers.{dash_boundary};
ghost use Rattle.rules_tablet.specs.Limits.{max_preamble};
ghost use Rattle.rules_tablet.specs.declared.Stage.TheVariants.{Preamble, Delimiter, Refused};
ghost use Rattle.reader_multipart.specs.Passing.{is_between, only_next, preamble_next, delimiter_next, after_delimiter_next, next_stage};
ghost use Rattle.reader_multipart.specs.Passing.{byte_passed, pass_byte, pass_on, Delimited};

use octets::prefixes::starts_with;
use reader_state::stages::{NextBytes, is_refused, look_at};
use rules_server::Refusal;
use rules_tablet::{Reader, Stage};

// Behind some bytes: where the reader stands, how many bytes of the body come after the next, and how many were taken.
#[derive(Clone, Copy)]
pub struct Passed {
    pub stage: Stage,
    pub after: usize,
    pub taken: usize,
}

// The reader stands between parts.
fn is_between(stage: Stage) -> bool
    ensures { result ≡ is_between stage }
{
    matches!(look_at(stage), NextBytes::BetweenParts)
}

// The multipart structure is broken.
fn broken() -> Stage
    ensures { result ≡ Refused 15 }
{
    Stage::Refused(Refusal::Multipart.number())
}

// Behind the one byte that may come.
fn only_next(b: u8, wanted: u8, next: Stage) -> Stage
    ensures { result ≡ only_next b wanted next }
{
    if b == wanted { next } else { broken() }
}

// Behind a byte where k empty lines were passed.
fn preamble_next(k: usize, b: u8) -> Stage
    ensures { result ≡ preamble_next k b }
{
    match b {
        b'-' => Stage::FirstDelimiter(3),
        b'\r' if k < Reader::MAX_PREAMBLE => Stage::PreambleEnd(k),
        _ => broken(),
    }
}

// Behind the byte after the CR of an empty line; where it is one too many, 15.
fn preamble_end_next(k: usize, b: u8) -> Stage
    ensures { result ≡ cond (ltb k max_preamble) (only_next b 10 (Preamble (suc k))) (Refused 15) }
{
    if k < Reader::MAX_PREAMBLE {
        only_next(b, b'\n', Stage::Preamble(k + 1))
    } else {
        broken()
    }
}

// Byte i of CR LF `--` boundary, none behind its end.
fn delimiter_byte(boundary: &[u8], i: usize) -> Option<u8>
    ensures { result ≡ slice_get (crlf ++ dash_boundary boundary.now) i }
{
    match i {
        0 => Some(b'\r'),
        1 => Some(b'\n'),
        2 | 3 => Some(b'-'),
        _ => boundary.get(i - 4).copied(),
    }
}

// Behind byte i of a delimiter, before the first part or behind one; where it has no byte i, 15.
fn delimiter_next(first: bool, i: usize, boundary: &[u8], b: u8) -> Stage
    ensures { result ≡ delimiter_next first i boundary.now b }
{
    if delimiter_byte(boundary, i) != Some(b) {
        return broken();
    }
    match (first, i < boundary.len() + 3) {
        (true, true) => Stage::FirstDelimiter(i + 1),
        (true, false) => Stage::AfterFirstDelimiter,
        (false, true) => Stage::Delimiter(i + 1),
        (false, false) => Stage::AfterDelimiter,
    }
}

// Behind the byte after a delimiter, the first or a later one.
fn after_delimiter_next(first: bool, b: u8) -> Stage
    ensures { result ≡ after_delimiter_next first b }
{
    match b {
        b'\r' => Stage::PartBegin,
        b'-' if !first => Stage::Closing,
        _ => broken(),
    }
}

// Behind a byte between parts.
fn next_stage(stage: Stage, boundary: &[u8], b: u8) -> Stage
    ensures { result ≡ next_stage stage boundary.now b }
{
    match stage {
        Stage::Preamble(k) => preamble_next(k, b),
        Stage::PreambleEnd(k) => preamble_end_next(k, b),
        Stage::FirstDelimiter(i) => delimiter_next(true, i, boundary, b),
        Stage::Delimiter(i) => delimiter_next(false, i, boundary, b),
        Stage::AfterFirstDelimiter => after_delimiter_next(true, b),
        Stage::AfterDelimiter => after_delimiter_next(false, b),
        Stage::PartBegin => only_next(b, b'\n', Stage::PartLine),
        Stage::Closing => only_next(b, b'-', Stage::Epilogue),
        _ => broken(),
    }
}

// One byte: the stage behind it where it is taken; else, as an error, the stage where it is not: refused by 15, or the same elsewhere than between parts.
fn pass_byte(stage: Stage, after: usize, boundary: &[u8], b: u8) -> Result<Stage, Stage>
    ensures { byte_passed after result ≡ pass_byte stage after boundary.now b }
{
    if !is_between(stage) {
        return Err(stage);
    }
    match next_stage(stage, boundary, b) {
        Stage::Epilogue if after == 0 => Ok(Stage::Finished),
        _ if after == 0 => Err(broken()),
        next if is_refused(next) => Err(next),
        next => Ok(next),
    }
}

// A delimiter begins here, behind a part's data.
fn begins_delimiter(stage: Stage) -> bool
    ensures { result ≡ true → stage ≡ Delimiter 0 }
{
    matches!(stage, Stage::Delimiter(0))
}

// A delimiter's line behind a part's data lies whole at the front of the piece, with no more bytes than are counted after its first.
fn is_delimited(stage: Stage, after: usize, boundary: &[u8], piece: &[u8]) -> bool
    ensures { result ≡ true → Delimited stage after boundary.now piece.now }
{
    let k = boundary.len();
    if !begins_delimiter(stage) || after < k + 6 || piece.len() < k + 6 {
        return false;
    }
    starts_with(b"\r\n--", piece)
        && starts_with(boundary, &piece[4..])
        && starts_with(b"\r\n", &piece[k + 4..])
}

// The bytes at the front of the piece that stand between parts: where the reader stands behind them, how many bytes of the body come after the next, and how
// many were taken.
// Where the first is refused, by 15, none is taken; a later one that is refused is left. Elsewhere than between parts none is taken, and the stage comes back.
pub fn pass(stage: Stage, after: usize, boundary: &[u8], piece: &[u8]) -> Passed
    ensures { result ≡ pass_on (record { stage = stage; after = after; taken = 0 }) boundary.now piece.now }
{
    if is_delimited(stage, after, boundary, piece) {
        let skip = boundary.len() + 6;
        return Passed {
            stage: Stage::PartLine,
            after: after - skip,
            taken: skip,
        };
    }
    let mut x = Passed {
        stage,
        after,
        taken: 0,
    };
    for b in piece {
        match pass_byte(x.stage, x.after, boundary, *b) {
            Ok(stage) => {
                x = Passed {
                    stage,
                    after: x.after.saturating_sub(1),
                    taken: x.taken + 1,
                };
            }
            Err(stage) if x.taken == 0 => return Passed { stage, ..x },
            Err(_) => return x,
        }
    }
    x
}
