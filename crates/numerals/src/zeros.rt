// Decimal numerals of any digit count: the zeros that one begins with.
ghost use Rattle.std.specs.Prelude.{◌≡◌, ◌≤◌, true, length, take};
ghost use Rattle.rules_server.specs.Octets.{all, digit_zero};
ghost use Rattle.octets.specs.Alike.{is_byte};
ghost use Rattle.rules_server.specs.NumeralOrder.{significant};

use octets::blocks::all_are;
use octets::digit;

// How many bytes are tested at once: half as many as in a search, since numerals are short.
const BLOCK: usize = 8;

// A number of digits 0 that d begins with, by blocks.
pub(crate) fn blocks_of_zeros(d: &[u8]) -> usize
    ensures within { result ≤ length d.now }
    ensures zeros { all (is_byte digit_zero) (take result d.now) ≡ true }
{
    let blocks = d.chunks_exact(BLOCK);
    BLOCK * blocks.take_while(|block| all_are(block, b'0')).count()
}

// The numeral without the bytes of value 0 that it begins with.
pub fn without_zeros(d: &[u8]) -> &[u8]
    ensures { result.now ≡ significant d.now }
{
    let rest = &d[blocks_of_zeros(d)..];
    &rest[rest.iter().take_while(|b| digit(**b) == 0).count()..]
}
