// A whole line of a part: a field line, or the empty line that ends its lines.
ghost use Rattle.std.specs.Prelude.{◌≡◌, IfOk, length, false, ◌+◌, leb};
ghost use Rattle.rules_server.specs.RefusalNumbers.{numbered};
ghost use Rattle.rules_tablet.specs.Lines.{whole};
ghost use Rattle.rules_tablet.specs.Parsers.{Parser, part_line, part_end, part_step};
ghost use Rattle.reader_multipart.specs.Lines.{behind_line};
ghost use Rattle.rules_tablet.specs.Fields.{is_wrong};
ghost use Rattle.reader_multipart.specs.Steps.{judged_part};

use octets::any_case::same_fold;
use octets::blanks::trim;
use octets::texts::CONTENT_RANGE;
use reader_fields::content_range::range_field;
use reader_fields::lines::colon_of;
use reader_fields::range_spans::{first_of, span_of};
use reader_fields::range_tests::{has_range, is_foreign, is_wrong};
use rules_server::Refusal;
use rules_tablet::{PartHead, Reader};

// What a whole line makes of a part: a field line, with the part's head behind it; the empty line, behind which so many bytes of data come from a position
// on.
#[derive(Clone, Copy)]
pub enum PartOut {
    Lines(PartHead),
    Data(usize, usize),
}

// A part's data, CR LF and a closing mark still fit into so many bytes.
fn has_room(span: usize, room: usize, after: usize) -> bool
    ensures { result ≡ leb (span + 2 + (room + 4)) after }
{
    span <= after && 6 <= after - span && room <= after - span - 6
}

// What refuses a part at its empty line, with a boundary of room bytes and so many bytes counted after this one: 15, 14, 13, 15.
#[tactic(auto, unfolding(rules_tablet::specs::Parsers::part_end))]
fn judge_part(x: PartHead, room: usize, after: usize, n: usize) -> Result<(), Refusal>
    ensures judged { (p : Parser) → p.part ≡ x → p.framing.after ≡ after → length p.boundary ≡ room
        → part_end n p ≡ judged_part (numbered result) p }
    ensures right { IfOk result (λ u. is_wrong n x.range ≡ false) }
{
    if x.lines == 0 || !has_range(x.range) {
        return Err(Refusal::Multipart);
    }
    if is_wrong(x.range, n) {
        return Err(Refusal::ContentRange);
    }
    if is_foreign(x.range, n) {
        return Err(Refusal::Foreign);
    }
    if !has_room(span_of(x.range), room, after) {
        return Err(Refusal::Multipart);
    }
    Ok(())
}

// A part's empty line.
fn part_end(part: PartHead, boundary_len: usize, after: usize, n: usize) -> Result<PartOut, Refusal>
    ensures { (p : Parser) → p.part ≡ part → p.framing.after ≡ after → length p.boundary ≡ boundary_len
        → part_end n p ≡ behind_line (numbered result) p }
{
    judge_part(part, boundary_len, after, n)?;
    Ok(PartOut::Data(first_of(part.range), span_of(part.range)))
}

// A whole field line of a part.
fn part_field(part: PartHead, l: &[u8]) -> Result<PartOut, Refusal>
    ensures { (p : Parser) → p.part ≡ part → part_line l.now p ≡ behind_line (numbered result) p }
{
    if Reader::MAX_PART_LINES <= part.lines {
        return Err(Refusal::Multipart);
    }
    let Some(colon) = colon_of(l) else {
        return Err(Refusal::Multipart);
    };
    let lines = part.lines + 1;
    if !same_fold(&l[..colon], &CONTENT_RANGE) {
        return Ok(PartOut::Lines(PartHead { lines, ..part }));
    }
    if has_range(part.range) {
        return Err(Refusal::Multipart);
    }
    let range = range_field(trim(&l[colon + 1..]));
    Ok(PartOut::Lines(PartHead { lines, range }))
}

// A whole line of a part with a boundary of boundary_len bytes, and so many bytes of the body after the line's last, for a copy of n bytes.
pub fn part_line(
    part: PartHead,
    boundary_len: usize,
    after: usize,
    n: usize,
    l: &[u8],
) -> Result<PartOut, Refusal>
    ensures { (p : Parser) → p.part ≡ part → p.framing.after ≡ after → length p.boundary ≡ boundary_len
        → part_step n (whole l.now) p ≡ behind_line (numbered result) p }
{
    if l.is_empty() {
        return part_end(part, boundary_len, after, n);
    }
    part_field(part, l)
}
