// Sums that stay within the numbers.
ghost use Rattle.std.specs.Prelude.{◌≡◌, ◌+◌, min};

// The sum, as far as numbers go.
pub fn sum(a: usize, b: usize) -> usize
    ensures { result ≡ min (a + b) 18446744073709551615 }
{
    a.saturating_add(b)
}
