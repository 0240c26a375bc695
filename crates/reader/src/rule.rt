// The reader's rule (docs/RECORDS.md), beside the copy that the reader is used with.
ghost use Rattle.std.specs.Prelude.{◌≡◌, ◌&&◌, suc, ◌+◌, leb, ltb, eqb, length};
ghost use Rattle.rules_tablet.specs.Heads.{size_of, is_parts, head_refusal};
ghost use Rattle.rules_tablet.specs.Calls.{range_ok, type_ok, remains, plain_ok, data_ok, stage_ok};
ghost use Rattle.reader.specs.Rules.{copy_with, parser_with, frame_ok, reader_rule};

use media_types::boundaries::bad_boundary;
use reader_fields::range_spans::{first_of, span_of};
use reader_fields::range_tests::{is_foreign, is_wrong};
use reader_head::Wanted;
use reader_head::judgement::{head_refusal, is_multipart};
use rules_server::Limits;
use rules_tablet::{Copy, Head, PartHead, RangeField, Reader, Stage, TypeField};

// The numbers of a Content-Range are at most the longest file's.
fn range_right(f: RangeField) -> bool
    ensures { result ≡ range_ok f }
{
    match f {
        RangeField::Absent => true,
        RangeField::Wrong => true,
        RangeField::Span(a, b) => (a <= Limits::MAX_FILE) & (b <= Limits::MAX_FILE),
        RangeField::Of(a, b, s) => {
            ((a <= Limits::MAX_FILE) & (b <= Limits::MAX_FILE)) & (s <= Limits::MAX_FILE)
        }
    }
}

// A multipart's type was read with its boundary.
fn type_right(f: TypeField, boundary: &[u8]) -> bool
    ensures { result ≡ type_ok f boundary.now }
{
    match f {
        TypeField::Absent => true,
        TypeField::Other => true,
        TypeField::Multipart => !bad_boundary(boundary),
        TypeField::Broken => true,
    }
}

// What holds wherever the reader stands.
fn frame_right(head: Head, part: PartHead, after: usize, boundary: &[u8]) -> bool
    ensures { result ≡ frame_ok head part after boundary.now }
{
    let lines = (head.lines <= Reader::MAX_FIELDS) & (part.lines <= Reader::MAX_PART_LINES);
    let typed = lines & type_right(head.media, boundary);
    let ranged = (typed & range_right(head.range)) & range_right(part.range);
    let sized = head.size.unwrap_or(0) <= Reader::MAX_SIZE;
    (ranged & sized) & (after < Reader::MAX_SIZE)
}

// The head was accepted for the copy, and what is left of its body is at most its Content-Length.
fn body_right(h: Head, after: usize, tag: &[u8], wanted: &Wanted) -> bool
    ensures { result ≡ (eqb (head_refusal wanted.now.tag.now wanted.now.length h tag.now) 0 && ltb after (size_of h.size)) }
{
    after < h.size.unwrap_or(0) && head_refusal(h, tag, wanted).is_none()
}

// The head is that of several parts.
fn is_parts(h: Head) -> bool
    ensures { result ≡ is_parts h }
{
    (h.status == 206) & is_multipart(h.media)
}

// Of the k positions from first on, those from next on are the last left.
fn remain(first: usize, k: usize, next: usize, left: usize) -> bool
    ensures { result ≡ remains first k next left }
{
    if k < left {
        return false;
    }
    if next < first {
        return false;
    }
    next - first == k - left
}

// A plain body: what is left of it ends where it does.
fn plain_right(h: Head, next: usize, after: usize) -> bool
    ensures { result ≡ plain_ok next after h }
{
    let k = h.size.unwrap_or(0);
    if k <= after {
        return false;
    }
    let single = (h.status == 200) | ((h.status == 206) & !is_multipart(h.media));
    single & remain(first_of(h.range), k, next, after + 1)
}

// A part's data: what is left of it ends where its Content-Range does.
fn data_right(range: RangeField, next: usize, left: usize, n: usize) -> bool
    ensures { result ≡ data_ok n next left range }
{
    if left == 0 {
        return false;
    }
    if is_wrong(range, n) {
        return false;
    }
    if is_foreign(range, n) {
        return false;
    }
    remain(first_of(range), span_of(range), next, left)
}

// What is counted holds a part's data, CR LF and the closing mark.
fn data_counted(left: usize, boundary: &[u8], after: usize) -> bool
    ensures { result ≡ leb (left + 2 + (length boundary.now + 4)) (suc after) }
{
    if after < left {
        return false;
    }
    boundary.len() + 5 <= after - left
}

// What holds where the reader stands.
fn stage_right(
    stage: Stage,
    after: usize,
    head: Head,
    part: PartHead,
    tag: &[u8],
    boundary: &[u8],
    wanted: &Wanted,
) -> bool
    ensures { result ≡ stage_ok (copy_with wanted.now.tag.now wanted.now.length) stage (parser_with after head part tag.now boundary.now) }
{
    let body = body_right(head, after, tag, wanted);
    let parts = body & is_parts(head);
    match stage {
        Stage::Plain(next) => body & plain_right(head, next, after),
        Stage::Skip => body & (head.status == 416),
        Stage::Preamble(k) => parts & (k <= Reader::MAX_PREAMBLE),
        Stage::PreambleEnd(k) => parts & (k < Reader::MAX_PREAMBLE),
        Stage::FirstDelimiter(i) => (parts & (3 <= i)) & (i < boundary.len() + 4),
        Stage::Delimiter(i) => parts & (i < boundary.len() + 4),
        Stage::Data(next, left) => {
            (parts & data_right(part.range, next, left, wanted.length))
                & data_counted(left, boundary, after)
        }
        Stage::Refused(k) => (11 <= k) & (k <= 17),
        Stage::Status | Stage::Fields | Stage::Finished => true,
        _ => parts,
    }
}

// The reader's record keeps its rule beside the copy (docs/RECORDS.md).
pub fn meets_rule(c: Copy, r: Reader) -> bool
    ensures { result ≡ reader_rule c r }
{
    let stage = r.stage;
    let head = r.head;
    let part = r.part;
    let tag = r.tag;
    let tag_len = r.tag_len;
    let boundary = r.boundary;
    let boundary_len = r.boundary_len;
    let copy_tag = c.tag;
    let copy_end = c.tag_len.min(Limits::MAX_TAG);
    if Reader::MAX_LINE < r.line_len {
        return false;
    }
    if Limits::MAX_TAG < tag_len {
        return false;
    }
    if Limits::MAX_BOUNDARY < boundary_len {
        return false;
    }
    let framed = frame_right(head, part, r.framing.after, &boundary[0..boundary_len]);
    let wanted = Wanted {
        tag: &copy_tag[0..copy_end],
        length: c.length,
    };
    let stands = stage_right(
        stage,
        r.framing.after,
        head,
        part,
        &tag[0..tag_len],
        &boundary[0..boundary_len],
        &wanted,
    );
    framed & stands
}
