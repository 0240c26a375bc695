// The value of a decimal numeral of any digit count, where it is bounded.
ghost use Rattle.std.specs.Prelude.{◌≡◌};
ghost use Rattle.rules_server.specs.Numerals.{decimal};
ghost use Rattle.numerals.specs.Bounds.{bounded_by};

use crate::zeros::blocks_of_zeros;
use octets::digit;

// The exact value of a numeral where it is at most the limit. Blocks of zeros in front are passed over.
#[inline(always)]
pub fn bounded(d: &[u8], limit: usize) -> Option<usize>
    ensures { result ≡ bounded_by limit (decimal d.now) }
{
    let mut n: usize = 0;
    let rest = &d[blocks_of_zeros(d)..];
    for b in rest {
        let x = usize::from(digit(*b));
        if limit < x || (limit - x) / 10 < n {
            return None;
        }
        n = n * 10 + x;
    }
    Some(n)
}
