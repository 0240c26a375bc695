// The record of a reader that a case begins with, made of what the case gives, whether or not it keeps its rule.
use crate::layout::{HEAD, LINE, PART, READER_BOUNDARY, READER_TAG, RECORD};
use octets::numbers::number_at;
use octets::overwrites::overwrite;
use program_io::packed::item;
use reader::fresh::begin;
use rules_server::Limits;
use rules_tablet::{Framing, Head, PartHead, RangeField, Reader, Stage, TypeField};

fn stage_of(v: &[u8]) -> Stage {
    let kind = number_at(v, 0);
    let a = number_at(v, 8);
    let b = number_at(v, 16);
    match kind {
        0 => Stage::Status,
        1 => Stage::Fields,
        2 => Stage::Plain(a),
        3 => Stage::Skip,
        4 => Stage::Preamble(a),
        5 => Stage::PreambleEnd(a),
        6 => Stage::FirstDelimiter(a),
        7 => Stage::Delimiter(a),
        8 => Stage::AfterFirstDelimiter,
        9 => Stage::AfterDelimiter,
        10 => Stage::PartBegin,
        11 => Stage::Closing,
        12 => Stage::PartLine,
        13 => Stage::Data(a, b),
        14 => Stage::Epilogue,
        15 => Stage::Finished,
        _ => Stage::Refused(a),
    }
}

// The Content-Range that the numbers of a head or a part begin with.
fn range_of(v: &[u8]) -> RangeField {
    let kind = number_at(v, 0);
    let a = number_at(v, 8);
    let b = number_at(v, 16);
    let s = number_at(v, 24);
    match kind {
        0 => RangeField::Absent,
        1 => RangeField::Wrong,
        2 => RangeField::Span(a, b),
        _ => RangeField::Of(a, b, s),
    }
}

fn type_of(kind: usize) -> TypeField {
    match kind {
        0 => TypeField::Absent,
        1 => TypeField::Other,
        2 => TypeField::Multipart,
        _ => TypeField::Broken,
    }
}

fn size_of(kind: usize, k: usize) -> Option<usize> {
    (kind != 0).then_some(k)
}

fn head_of(v: &[u8]) -> Head {
    Head {
        status: number_at(v, 32),
        lines: number_at(v, 40),
        has_tag: number_at(v, 48) == 1,
        media: type_of(number_at(v, 56)),
        range: range_of(v),
        size: size_of(number_at(v, 64), number_at(v, 72)),
    }
}

// The reader of a case: a fresh one where the case has no record.
pub fn reader_of(case: &[u8]) -> Reader {
    let v = item(case, RECORD);
    if v.len() == 0 {
        return begin();
    }
    let part = item(case, PART);
    let mut line = [0u8; Reader::MAX_LINE];
    let mut tag = [0u8; Limits::MAX_TAG];
    let mut boundary = [0u8; Limits::MAX_BOUNDARY];
    overwrite(&mut line, 0, item(case, LINE));
    overwrite(&mut tag, 0, item(case, READER_TAG));
    overwrite(&mut boundary, 0, item(case, READER_BOUNDARY));
    Reader {
        stage: stage_of(v),
        framing: Framing {
            after: number_at(v, 24),
        },
        line,
        line_len: number_at(v, 32),
        cr: number_at(v, 40) == 1,
        head: head_of(item(case, HEAD)),
        part: PartHead {
            lines: number_at(part, 32),
            range: range_of(part),
        },
        tag,
        tag_len: number_at(v, 48),
        boundary,
        boundary_len: number_at(v, 56),
    }
}
