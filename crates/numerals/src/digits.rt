// Byte strings of digits.
ghost use Rattle.std.specs.Prelude.{◌≡◌};
ghost use Rattle.rules_server.specs.Octets.{is_digit, all};

use octets::is_digit;

// Every byte is a digit.
pub fn all_digits(t: &[u8]) -> bool
    ensures { result ≡ all is_digit t.now }
{
    t.iter().all(|b| is_digit(*b))
}
