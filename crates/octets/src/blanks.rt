// The spaces and tabs at the ends of a byte string.
ghost use Rattle.std.specs.Prelude.{◌≡◌, ◌≤◌, length, take, drop};
ghost use Rattle.rules_server.specs.Octets.{trim_start, trim_end};
ghost use Rattle.rules_server.specs.Octets.{trim as trimmed};

use crate::is_blank;

// How many blanks v begins with.
pub fn leading_blanks(v: &[u8]) -> usize
    ensures within { result ≤ length v.now }
    ensures rest { drop result v.now ≡ trim_start v.now }
{
    v.iter().take_while(|b| is_blank(**b)).count()
}

// Where the blanks begin that v ends with.
fn trailing_blanks(v: &[u8]) -> usize
    ensures within { result ≤ length v.now }
    ensures rest { take result v.now ≡ trim_end v.now }
{
    v.len() - v.iter().rev().take_while(|b| is_blank(**b)).count()
}

// v without the spaces and tabs at its ends.
pub fn trim(v: &[u8]) -> &[u8]
    ensures { result.now ≡ trimmed v.now }
{
    let rest = &v[leading_blanks(v)..];
    &rest[..trailing_blanks(rest)]
}
