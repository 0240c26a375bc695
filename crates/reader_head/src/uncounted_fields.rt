// The whole field lines of a head whose names do not count, many at once.
ghost use Rattle.std.specs.Prelude.{◌≡◌, ◌||◌, ◌≤◌, eqb, length, take, drop};
ghost use Rattle.rules_server.specs.Octets.{starts_with, within};
ghost use Rattle.rules_server.specs.Texts.{crlf};
ghost use Rattle.rules_tablet.specs.Fields.{kind_of};
ghost use Rattle.reader_fields.specs.Names.{name_meaning};
ghost use Rattle.reader_head.specs.Lines.{line_at, is_other, some_bytes, other_line, other_lines};

use reader_fields::line_bytes::line_run;
use reader_fields::lines::colon_of;
use reader_fields::names::{Name, kind_of};
use rules_tablet::Reader;

// How many field lines there are, and how many bytes they have with their CR LF.
#[derive(Clone, Copy, Debug, PartialEq, Eq)]
pub struct OtherLines {
    pub lines: usize,
    pub taken: usize,
}

// How many bytes stand before the first that may not stand in a line.
fn value_end(part: &[u8]) -> usize
    ensures within { result ≤ length part.now }
    ensures run { take result part.now ≡ line_at part.now }
{
    line_run(part, part.len())
}

// A name that counts may have this length: ETag has 4 bytes, Content-Type 12, Content-Range 13, Content-Length 14 and Transfer-Encoding 17.
fn may_count(n: usize) -> bool
    ensures { result ≡ (eqb n 4 || within 12 14 n || eqb n 17) }
{
    matches!(n, 4 | 12..=14 | 17)
}

// The name is none of those that count.
#[tactic(auto, using(crate::proofs::uncounted_fields::Names::other_length))]
fn is_other(name: &[u8]) -> bool
    ensures { result ≡ is_other (kind_of name.now) }
{
    !may_count(name.len()) || matches!(kind_of(name), Name::Other)
}

// The bytes begin with CR LF.
fn is_ended(rest: &[u8]) -> bool
    ensures { result ≡ starts_with crlf rest.now }
{
    matches!(rest, [b'\r', b'\n', ..])
}

// How many bytes the line at the front has with its CR LF, none where it is not whole, no field, or its name counts.
fn other_line(part: &[u8]) -> Option<usize>
    ensures { result ≡ some_bytes (other_line part.now) }
{
    let colon = colon_of(part)?;
    let value = colon + 1;
    if !is_other(&part[..colon]) {
        return None;
    }
    let k = value + value_end(&part[value..]);
    (k <= Reader::MAX_LINE && is_ended(&part[k..])).then_some(k + 2)
}

// How many whole field lines stand at the front of the piece, at most `most`, whose names do not count, and how many bytes they have with their CR LF.
pub fn other_lines(piece: &[u8], most: usize) -> OtherLines
    ensures { result ≡ other_lines most piece.now }
{
    let mut taken = 0;
    for lines in 0..most {
        let Some(k) = other_line(&piece[taken..]) else {
            return OtherLines { lines, taken };
        };
        taken += k;
    }
    OtherLines { lines: most, taken }
}
