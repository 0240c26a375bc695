// The order of decimal numerals of any digit count, by their digits.
ghost use Rattle.std.specs.Prelude.{◌≡◌, ltb, length};
ghost use Rattle.rules_server.specs.Numerals.{decimal};
ghost use Rattle.rules_server.specs.NumeralOrder.{first_less};

use crate::zeros::without_zeros;
use octets::digit;
use std::cmp::Ordering;

// Of two numerals with the same count of digits, the first is less: the first digit that differs decides.
fn less_digits(p: &[u8], q: &[u8]) -> bool
    requires { length p.now ≡ length q.now }
    ensures { result ≡ first_less p.now q.now }
{
    p.iter()
        .map(|b| digit(*b))
        .cmp(q.iter().map(|b| digit(*b)))
        .is_lt()
}

// The numeral a is less than the numeral b, by their exact values.
#[tactic(auto, using(laws_numerals::proofs::Laws::compare_by_digits))]
pub fn less(a: &[u8], b: &[u8]) -> bool
    ensures { result ≡ ltb (decimal a.now) (decimal b.now) }
{
    let p = without_zeros(a);
    let q = without_zeros(b);
    match p.len().cmp(&q.len()) {
        Ordering::Less => true,
        Ordering::Equal => less_digits(p, q),
        Ordering::Greater => false,
    }
}
