// The digits that a text begins with.
ghost use Rattle.std.specs.Prelude.{◌≡◌, ◌≤◌, length};
ghost use Rattle.rules_server.specs.Ranges.{digits};

use crate::zeros::blocks_of_zeros;
use octets::is_digit;

// How many digits m begins with.
pub fn count_digits(m: &[u8]) -> usize
    ensures within { result ≤ length m.now }
    ensures count { result ≡ length (digits m.now) }
{
    let zeros = blocks_of_zeros(m);
    zeros + m[zeros..].iter().take_while(|b| is_digit(**b)).count()
}
