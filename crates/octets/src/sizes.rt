// Sizes: the smaller of two, and how many bytes come before a multiple of 16.
ghost use Rattle.std.specs.Prelude.{◌≡◌, min};
ghost use Rattle.octets.specs.Leads.{lead_of};

// From how many bytes on a multiple of 16 is worth its search.
const LONG: usize = 1024;

// The smaller of two numbers. It stays beside std's `min` for its wrong answers, `sizes_larger` and `sizes_other_number`.
pub fn least(a: usize, b: usize) -> usize
    ensures { result ≡ min a b }
{
    a.min(b)
}

// How many of n bytes, stored from position `at` of a buffer on, come before a multiple of 16; 0 of few. A buffer begins mostly at an address that is a
// multiple of 16, and stores at such addresses take less time.
pub fn lead(at: usize, n: usize) -> usize
    ensures { result ≡ lead_of at n }
{
    if n < LONG { 0 } else { 16 - at % 16 }
}
