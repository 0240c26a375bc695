// A step over bytes of an answer that are not data: lines, the bytes between parts, and those that are skipped.
#![tactic(auto)]

mod bytes; // The lines of an answer, one byte at a time, over a small state by value with the line, the kept tag and the boundary lent beside it.

ghost use Rattle.std.specs.Prelude.{◌≡◌, true, false, cond, List, ℕ, ◌+◌, ◌-◌, ◌≤◌, min, length, IfSome};
ghost use Rattle.rules_server.specs.Limits.{max_boundary};
ghost use Rattle.rules_tablet.specs.Limits.{max_fields};
ghost use Rattle.rules_tablet.specs.Parsers.{with_framing, counted_body};
ghost use Rattle.reader_state.specs.States.{parser_of, Within, Sized};
ghost use Rattle.reader_multipart.specs.Parsers.{led_to};
ghost use Rattle.reader_state.specs.Looks.{look_of, is_data};
ghost use Rattle.reader_state.specs.declared.stages.NextBytes.TheVariants.{Skipped, LineOfHead, LineOfPart};
ghost use Rattle.reader_text.specs.Steps.{TextFrom, SkipIs, is_fields, LineIs, PartAheadIs, WholeAhead, LineEnds, Ahead, state_lines, BetweenIs, room_for};
ghost use Rattle.reader_text.specs.Steps.{StepIs};

use crate::bytes::parse_byte;
use octets::overwrites::overwrite;
use reader_fields::line_bytes::line_run;
use reader_head::uncounted_fields::{OtherLines, other_lines};
use reader_head::{Wanted, fields_line};
use reader_multipart::delimiters::pass;
use reader_multipart::part::{PartOut, part_line};
use reader_state::ReaderState;
use reader_state::sizes::has_sizes;
use reader_state::stages::{NextBytes, is_refused, look_at};
use rules_tablet::{Framing, PartHead, RangeField, Reader, Stage};

// What a step leaves, and how many bytes were taken.
#[derive(Clone, Copy)]
pub struct Took {
    pub state: ReaderState,
    pub taken: usize,
}

// Lines of a part at the front of a piece: the part's head and where the reader stands behind them, the bytes of the body after the next, and how many bytes
// they take.
#[derive(Clone, Copy)]
struct PartAhead {
    part: PartHead,
    stage: Stage,
    after: usize,
    taken: usize,
}

// Bytes that are skipped, of so many.
fn skip_step(s: ReaderState, size: usize) -> Took
    requires { (look_of s.stage ≡ Skipped) × (1 ≤ size) }
    ensures { SkipIs size s result.taken result.state }
{
    let after = s.framing.after;
    if size <= after {
        return Took {
            state: s.with_framing(Framing {
                after: after - size,
            }),
            taken: size,
        };
    }
    Took {
        state: s
            .with_stage(Stage::Finished)
            .with_framing(Framing { after: 0 }),
        taken: after + 1,
    }
}

// How many bytes of a line of a part, or of the head, may come at once; none behind its CR.
fn line_room(is_part: bool, cr: bool, room: usize, after: usize) -> usize
    ensures { result ≡ cond cr 0 (cond is_part (min room after) room) }
{
    if cr {
        0
    } else if is_part {
        room.min(after)
    } else {
        room
    }
}

// The bytes of the body after the next, behind k bytes of a line of a part or of the head.
fn line_left(is_part: bool, after: usize, k: usize) -> usize
    ensures { result ≡ cond is_part (after - k) after }
{
    if is_part {
        after.saturating_sub(k)
    } else {
        after
    }
}

// Bytes of a line, as many as may stand in it, else the next byte; where it is refused, only where the reader stands is changed.
// The three arrays are lent each by itself: of a struct of them each contract would also have to say that the others, the lengths and the names stay.
fn line_step(
    s: ReaderState,
    is_part: bool,
    line: &mut [u8],
    tag: &mut [u8],
    boundary: &mut [u8],
    wanted: &Wanted,
    piece: &[u8],
) -> Took
    requires { Sized s line.old tag.old boundary.old × (look_of s.stage ≡ cond is_part LineOfPart LineOfHead) × (1 ≤ length piece.now) }
    ensures { TextFrom wanted.now.tag.now wanted.now.length piece.now s line.old tag.old boundary.old result.taken
        result.state line.new tag.new boundary.new }
{
    let after = s.framing.after;
    let len = s.line_len;
    let most = line_room(is_part, s.cr, Reader::MAX_LINE - len, after);
    let k = line_run(piece, most);
    if k != 0 {
        overwrite(line, len, &piece[..k]);
        let left = line_left(is_part, after, k);
        return Took {
            state: s
                .with_line(len + k, false)
                .with_framing(Framing { after: left }),
            taken: k,
        };
    }
    let x = parse_byte(s, line, tag, boundary, wanted, piece[0]);
    if is_refused(x.stage) {
        return Took {
            state: s.with_stage(x.stage),
            taken: 0,
        };
    }
    Took { state: x, taken: 1 }
}

// The stage is that of a line behind the status line.
fn is_fields(stage: Stage) -> bool
    ensures { result ≡ is_fields stage }
{
    matches!(stage, Stage::Fields)
}

// CR LF stands behind the first k bytes of the piece.
fn line_ends(piece: &[u8], k: usize) -> bool
    ensures { result ≡ true → LineEnds piece.now k }
{
    if piece.len() <= k {
        return false;
    }
    if piece.len() - k <= 1 {
        return false;
    }
    piece[k] == b'\r' && piece[k + 1] == b'\n'
}

// How many bytes a line has that begins here and lies whole at the front of the piece, with its CR fewer than `room`.
fn whole_ahead(len: usize, cr: bool, room: usize, piece: &[u8]) -> Option<usize>
    ensures { IfSome result (λ k. WholeAhead len cr room piece.now k) }
{
    if len != 0 || cr {
        return None;
    }
    let k = line_run(piece, Reader::MAX_LINE);
    if k + 1 < room && line_ends(piece, k) {
        Some(k)
    } else {
        None
    }
}

// A line behind the status line that lies whole at the front of the piece and is not refused; otherwise none of it is taken, and the reader means what it
// meant.
fn whole_line(
    s: ReaderState,
    tag: &mut [u8],
    boundary: &mut [u8],
    wanted: &Wanted,
    piece: &[u8],
) -> Option<Took>
    ensures { LineIs wanted.now.tag.now wanted.now.length piece.now s tag.old boundary.old result tag.new boundary.new }
{
    if !is_fields(s.stage) {
        return None;
    }
    let k = whole_ahead(s.line_len, s.cr, piece.len(), piece)?;
    let x = fields_line(s, &piece[..k], tag, boundary, wanted);
    if is_refused(x.stage) {
        return None;
    }
    Some(Took {
        state: x,
        taken: k + 2,
    })
}

// The lines of a part at the front of the piece that lie whole in it, each with a counted byte behind it, up to its empty line or before one that is refused;
// none where no line begins here.
fn part_ahead(
    len: usize,
    cr: bool,
    part: PartHead,
    boundary_len: usize,
    after: usize,
    n: usize,
    piece: &[u8],
) -> PartAhead
    ensures { PartAheadIs n piece.now len cr part boundary_len after result }
{
    let mut x = PartAhead {
        part,
        stage: Stage::PartLine,
        after,
        taken: 0,
    };
    while let Some(k) = whole_ahead(len, cr, x.after, &piece[x.taken..]) {
        let behind = x.after - (k + 1);
        let end = x.taken + k;
        match part_line(x.part, boundary_len, behind, n, &piece[x.taken..end]) {
            Err(_) => return x,
            Ok(PartOut::Lines(read)) => {
                x.part = read;
                x.after = behind - 1;
                x.taken = end + 2;
            }
            Ok(PartOut::Data(first, span)) => {
                return PartAhead {
                    stage: Stage::Data(first, span),
                    after: behind - 1,
                    taken: end + 2,
                    ..x
                };
            }
        }
    }
    x
}

// Lines of a part: those that lie whole in the piece at once, else bytes of one.
fn part_step(
    s: ReaderState,
    line: &mut [u8],
    tag: &mut [u8],
    boundary: &mut [u8],
    wanted: &Wanted,
    piece: &[u8],
) -> Took
    requires { Sized s line.old tag.old boundary.old × (look_of s.stage ≡ LineOfPart) × (1 ≤ length piece.now) }
    ensures { TextFrom wanted.now.tag.now wanted.now.length piece.now s line.old tag.old boundary.old result.taken
        result.state line.new tag.new boundary.new }
{
    let x = part_ahead(
        s.line_len,
        s.cr,
        s.part,
        s.boundary_len,
        s.framing.after,
        wanted.length,
        piece,
    );
    if x.taken != 0 {
        return Took {
            state: ReaderState {
                stage: x.stage,
                framing: Framing { after: x.after },
                ..s.with_part(x.part)
            },
            taken: x.taken,
        };
    }
    line_step(s, true, line, tag, boundary, wanted, piece)
}

// The whole field lines at the front of the piece whose names do not count, where a line behind the status line begins and there is room for more.
fn lines_ahead(stage: Stage, len: usize, cr: bool, lines: usize, piece: &[u8]) -> Option<OtherLines>
    ensures { IfSome result (λ o. Ahead stage len cr lines piece.now o) }
{
    if !is_fields(stage) || len != 0 || cr {
        return None;
    }
    let room = Reader::MAX_FIELDS.checked_sub(lines)?;
    let found = other_lines(piece, room);
    if found.taken == 0 { None } else { Some(found) }
}

// With so many field lines more.
fn with_lines(s: ReaderState, more: usize) -> ReaderState
    requires { s.head.lines + more ≤ max_fields }
    ensures { result ≡ state_lines more s }
{
    let mut head = s.head;
    head.lines += more;
    ReaderState { head, ..s }
}

// Lines of the head: those whose names do not count at once, else one that lies whole in the piece, else bytes of one.
fn head_step(
    s: ReaderState,
    line: &mut [u8],
    tag: &mut [u8],
    boundary: &mut [u8],
    wanted: &Wanted,
    piece: &[u8],
) -> Took
    requires { Sized s line.old tag.old boundary.old × (look_of s.stage ≡ LineOfHead) × (1 ≤ length piece.now) }
    ensures { TextFrom wanted.now.tag.now wanted.now.length piece.now s line.old tag.old boundary.old result.taken
        result.state line.new tag.new boundary.new }
{
    if let Some(o) = lines_ahead(s.stage, s.line_len, s.cr, s.head.lines, piece) {
        return Took {
            state: with_lines(s, o.lines),
            taken: o.taken,
        };
    }
    if let Some(t) = whole_line(s, tag, boundary, wanted, piece) {
        return t;
    }
    line_step(s, false, line, tag, boundary, wanted, piece)
}

// Behind bytes between parts; where a part's lines come next, its head begins.
fn passed_to(s: ReaderState, stage: Stage, after: usize) -> ReaderState
    ensures step { (line tag boundary : List ℕ)
        → parser_of result line tag boundary ≡ led_to stage (with_framing (counted_body after) (parser_of s line tag boundary)) }
    ensures within { Within s → Within result }
{
    let x = s.with_stage(stage).with_framing(Framing { after });
    if !matches!(stage, Stage::PartLine) {
        return x;
    }
    x.with_part(PartHead {
        lines: 0,
        range: RangeField::Absent,
    })
}

// The bytes between parts at the front of the piece, at once.
fn pass_step(s: ReaderState, boundary: &[u8], piece: &[u8]) -> Took
    ensures { BetweenIs boundary.now piece.now s result.taken result.state }
{
    let x = pass(s.stage, s.framing.after, boundary, piece);
    let state = if x.taken == 0 {
        s.with_stage(x.stage)
    } else {
        passed_to(s, x.stage, x.after)
    };
    Took {
        state,
        taken: x.taken,
    }
}

// A step where the numbers and the arrays are right and a byte without data comes next.
fn right_step(
    s: ReaderState,
    line: &mut [u8],
    tag: &mut [u8],
    boundary: &mut [u8],
    wanted: &Wanted,
    piece: &[u8],
) -> Took
    requires { Sized s line.old tag.old boundary.old × (1 ≤ length piece.now) × (is_data s.stage ≡ false) }
    ensures { TextFrom wanted.now.tag.now wanted.now.length piece.now s line.old tag.old boundary.old result.taken
        result.state line.new tag.new boundary.new }
{
    match look_at(s.stage) {
        NextBytes::Skipped => skip_step(s, piece.len()),
        NextBytes::LineOfHead => head_step(s, line, tag, boundary, wanted, piece),
        NextBytes::LineOfPart => part_step(s, line, tag, boundary, wanted, piece),
        NextBytes::BetweenParts => pass_step(s, &boundary[..s.boundary_len], piece),
        // no byte is read any more: data does not come here
        _ => Took { state: s, taken: 0 },
    }
}

// Between parts the numbers of the stage are those of a delimiter with a boundary of so many bytes, or of an empty line; no data comes next.
fn has_room(stage: Stage, boundary_len: usize) -> bool
    requires { boundary_len ≤ max_boundary }
    ensures { result ≡ room_for stage boundary_len }
{
    match stage {
        Stage::PreambleEnd(k) => k < Reader::MAX_PREAMBLE,
        Stage::FirstDelimiter(i) => i < boundary_len + 4,
        Stage::Delimiter(i) => i < boundary_len + 4,
        Stage::Plain(_) | Stage::Data(_, _) => false,
        _ => true,
    }
}

// A step over bytes without data at the front of a piece of an answer, for a copy of the wanted file.
// Nothing is changed where an array has not its size, a length or a number of the stage is not within its bounds, data comes next or the piece is empty.
pub fn text_step(
    s: ReaderState,
    line: &mut [u8],
    tag: &mut [u8],
    boundary: &mut [u8],
    wanted: &Wanted,
    piece: &[u8],
) -> Took
    ensures { StepIs wanted.now.tag.now wanted.now.length piece.now s line.old tag.old boundary.old result.taken
        result.state line.new tag.new boundary.new }
{
    let sized = has_sizes(
        line.len(),
        tag.len(),
        boundary.len(),
        s.line_len,
        s.tag_len,
        s.boundary_len,
    );
    if !sized || !has_room(s.stage, s.boundary_len) || piece.is_empty() {
        return Took { state: s, taken: 0 };
    }
    right_step(s, line, tag, boundary, wanted, piece)
}
