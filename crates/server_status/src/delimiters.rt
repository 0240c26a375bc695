// The search for a multipart's delimiter in the data of its parts (refusal 6).
ghost use Rattle.std.specs.Prelude.{◌≡◌, ◌++◌};
ghost use Rattle.rules_server.specs.Octets.{starts_with, occurs};
ghost use Rattle.rules_server.specs.Texts.{crlf};
ghost use Rattle.rules_server.specs.Answers.{dash_boundary};
ghost use Rattle.rules_server.specs.Refusals.{delimiter_in_parts};

use octets::searches::index_of;
use rules_server::Run;
use server_ranges::data::data_of;

// The bytes begin with `--` boundary.
fn begins_with_dash_boundary(boundary: &[u8], l: &[u8]) -> bool
    ensures { result ≡ starts_with (dash_boundary boundary.now) l.now }
{
    let Some(rest) = l.strip_prefix(b"--") else {
        return false;
    };
    rest.starts_with(boundary)
}

// The bytes begin with CR LF `--` boundary.
fn begins_with_delimiter(boundary: &[u8], l: &[u8]) -> bool
    ensures { result ≡ starts_with (crlf ++ dash_boundary boundary.now) l.now }
{
    let Some(rest) = l.strip_prefix(b"\r\n") else {
        return false;
    };
    begins_with_dash_boundary(boundary, rest)
}

// CR LF `--` boundary occurs in CR LF followed by the data. It is compared only where a CR stands, and what
// matches of a boundary without CR holds no other, so the cost is linear.
fn has_delimiter(boundary: &[u8], data: &[u8]) -> bool
    ensures { result ≡ occurs (crlf ++ dash_boundary boundary.now) (crlf ++ «data».now) }
{
    if begins_with_dash_boundary(boundary, data) {
        return true;
    }
    let mut rest = &data[index_of(data, b'\r')..];
    while let Some((_, behind)) = rest.split_first() {
        if begins_with_delimiter(boundary, rest) {
            return true;
        }
        rest = &behind[index_of(behind, b'\r')..];
    }
    false
}

// It does in the data of some part.
pub fn delimiter_in_parts(boundary: &[u8], file: &[u8], parts: &[Run]) -> bool
    ensures { result ≡ delimiter_in_parts boundary.now file.now parts.now }
{
    parts
        .iter()
        .any(|r| has_delimiter(boundary, data_of(file, *r)))
}
