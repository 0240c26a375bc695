// The lines of an answer, one byte at a time, over a small state by value with the line, the kept tag and the boundary lent beside it.
ghost use Rattle.std.specs.Prelude.{◌≡◌, true, List, ℕ, ◌≤◌, length, take, drop};
ghost use Rattle.rules_tablet.specs.Parsers.{Parser, at, parse, framed, last_byte, is_refused, part_step, status_line, status_step, fields_step};
ghost use Rattle.reader_text.specs.Lines.{LineReady};
ghost use Rattle.reader_state.specs.States.{parser_of, ArraysSized, Within, Beyond, Unchanged, LineSized};
ghost use Rattle.rules_tablet.specs.Lines.{whole, line_step};
ghost use Rattle.rules_tablet.specs.Fields.{is_status_line, status_number};

use numerals::bounded::bounded;
use numerals::digits::all_digits;
use octets::prefixes::starts_with;
use octets::texts::VERSION;
use reader_head::{Wanted, fields_line};
use reader_multipart::part::{PartOut, part_line};
use reader_state::line::line_byte;
use reader_state::sizes::has_sizes;
use reader_state::{LineOut, ReaderState};
use rules_server::Refusal;
use rules_tablet::{Framing, Stage};

// A byte of a line behind the status line.
fn fields_step(
    s: ReaderState,
    line: &mut [u8],
    tag: &mut [u8],
    boundary: &mut [u8],
    wanted: &Wanted,
    b: u8,
) -> ReaderState
    requires { ArraysSized s line.old tag.old boundary.old }
    ensures step { parser_of result line.new tag.new boundary.new ≡ fields_step wanted.now.tag.now wanted.now.length
        (line_step (take s.line_len line.old) s.cr b) (parser_of s line.old tag.old boundary.old) }
    ensures within { Within result }
    ensures front { take s.line_len line.new ≡ take s.line_len line.old }
    ensures beyond { Beyond result line.old tag.old boundary.old line.new tag.new
        boundary.new }
{
    match line_byte(line, s.line_len, s.cr, b) {
        LineOut::Going(k) => s.with_line(k, false),
        LineOut::Ending => s.with_line(s.line_len, true),
        LineOut::Broken => s.refuse(Refusal::Head),
        LineOut::Whole => fields_line(s, &line[..s.line_len], tag, boundary, wanted),
    }
}

// What stands at the place of the three digits of a status line.
fn status_digits(l: &[u8]) -> &[u8]
    ensures { result.now ≡ take 3 (drop 9 l.now) }
{
    &l[l.len().min(9)..l.len().min(12)]
}

// l is a status line.
fn is_status_line(l: &[u8]) -> bool
    ensures { result ≡ is_status_line l.now }
{
    if !starts_with(&VERSION, l) {
        return false;
    }
    if l.len() < 12 {
        return false;
    }
    if !all_digits(status_digits(l)) {
        return false;
    }
    if l.len() == 12 {
        return true;
    }
    l[12] == b' '
}

// The number in a status line.
fn status_number(l: &[u8]) -> usize
    ensures { result ≡ status_number l.now }
{
    bounded(status_digits(l), 999).unwrap_or(0)
}

// A whole status line.
fn status_line(s: ReaderState, l: &[u8]) -> ReaderState
    ensures step { (line tag boundary : List ℕ) → parser_of result line tag boundary ≡ status_line l.now (parser_of s line tag boundary) }
    ensures within { Within s → Within result }
{
    if !is_status_line(l) {
        return s.refuse(Refusal::Head);
    }
    let mut head = s.head;
    head.status = status_number(l);
    s.with_head(head, s.tag_len, s.boundary_len)
        .with_stage(Stage::Fields)
}

// A byte of the status line.
fn status_step(s: ReaderState, line: &mut [u8], b: u8) -> ReaderState
    requires { LineSized s.line_len line.old }
    ensures step { (tag boundary : List ℕ)
        → parser_of result line.new tag boundary ≡ status_step (line_step (take s.line_len line.old) s.cr b)
        (parser_of s line.old tag boundary) }
    ensures within { Within s → Within result }
    ensures front { take s.line_len line.new ≡ take s.line_len line.old }
    ensures beyond { drop result.line_len line.new ≡ drop result.line_len line.old }
{
    match line_byte(line, s.line_len, s.cr, b) {
        LineOut::Going(k) => s.with_line(k, false),
        LineOut::Ending => s.with_line(s.line_len, true),
        LineOut::Broken => s.refuse(Refusal::Head),
        LineOut::Whole => status_line(s, &line[..s.line_len]),
    }
}

// A whole line of a part.
fn whole_line(s: ReaderState, l: &[u8], n: usize) -> ReaderState
    ensures step { (line tag boundary : List ℕ) → s.boundary_len ≤ length boundary
        → parser_of result line tag boundary ≡ part_step n (whole l.now) (parser_of s line tag boundary) }
    ensures within { Within s → Within result }
{
    match part_line(s.part, s.boundary_len, s.framing.after, n, l) {
        Err(why) => s.refuse(why),
        Ok(PartOut::Lines(x)) => s.with_part(x),
        Ok(PartOut::Data(first, span)) => {
            s.with_line(0, false).with_stage(Stage::Data(first, span))
        }
    }
}

// A byte of a line of a part.
fn part_step(s: ReaderState, line: &mut [u8], n: usize, b: u8) -> ReaderState
    requires { LineSized s.line_len line.old }
    ensures step { (tag boundary : List ℕ) → s.boundary_len ≤ length boundary
        → parser_of result line.new tag boundary ≡ part_step n (line_step (take s.line_len line.old) s.cr b)
        (parser_of s line.old tag boundary) }
    ensures within { Within s → Within result }
    ensures front { take s.line_len line.new ≡ take s.line_len line.old }
    ensures beyond { drop result.line_len line.new ≡ drop result.line_len line.old }
{
    match line_byte(line, s.line_len, s.cr, b) {
        LineOut::Going(k) => s.with_line(k, false),
        LineOut::Ending => s.with_line(s.line_len, true),
        LineOut::Broken => s.refuse(Refusal::Multipart),
        LineOut::Whole => whole_line(s, &line[..s.line_len], n),
    }
}

// Where the last counted byte leaves a body that stands at a stage: finished, or 15.
fn last_byte(stage: Stage) -> Stage
    ensures { (p : Parser) → last_byte stage (at stage p) ≡ at result p }
{
    match stage {
        Stage::Plain(_) | Stage::Skip | Stage::Epilogue | Stage::Finished => Stage::Finished,
        Stage::Refused(k) => Stage::Refused(k),
        _ => Stage::Refused(15),
    }
}

// One byte of the body passed, by its framing.
fn count_byte(s: ReaderState, framing: Framing) -> ReaderState
    ensures step { (line tag boundary : List ℕ) → parser_of result line tag boundary ≡ framed framing (parser_of s line tag boundary) }
    ensures within { Within s → Within result }
    ensures line { result.line_len ≡ s.line_len }
{
    let after = framing.after;
    if after == 0 {
        return s.with_stage(last_byte(s.stage));
    }
    s.with_framing(Framing { after: after - 1 })
}

// What the next byte makes of the parser where a line is read, for a copy of the wanted file. Where it is refused, the arrays mean what they meant.
// Nothing is changed where no line is read, an array has not its size or a length is not within it.
pub fn parse_byte(
    s: ReaderState,
    line: &mut [u8],
    tag: &mut [u8],
    boundary: &mut [u8],
    wanted: &Wanted,
    b: u8,
) -> ReaderState
    ensures step { LineReady s line.old tag.old boundary.old
        → (parser_of result line.new tag.new boundary.new ≡ parse wanted.now.tag.now wanted.now.length s.stage b
        (parser_of s line.old tag.old boundary.old))
        × ArraysSized result line.new tag.new boundary.new }
    ensures kept { LineReady s line.old tag.old boundary.old → is_refused result.stage ≡ true
        → parser_of s line.new tag.new boundary.new ≡ parser_of s line.old tag.old
        boundary.old }
    ensures beyond { Beyond result line.old tag.old boundary.old line.new tag.new
        boundary.new }
    ensures other { (LineReady s line.old tag.old boundary.old → ⊥)
        → Unchanged s line.old tag.old boundary.old result line.new tag.new boundary.new }
{
    if !has_sizes(
        line.len(),
        tag.len(),
        boundary.len(),
        s.line_len,
        s.tag_len,
        s.boundary_len,
    ) {
        return s;
    }
    match s.stage {
        Stage::Status => status_step(s, line, b),
        Stage::Fields => fields_step(s, line, tag, boundary, wanted, b),
        Stage::PartLine => count_byte(part_step(s, line, wanted.length, b), s.framing),
        _ => s,
    }
}
