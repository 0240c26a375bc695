// Times in seconds since 1970, which may be before it, by a sign and a size.
ghost use Rattle.std.specs.Prelude.{◌≡◌, nat_abs};
ghost use Rattle.program_io.specs.Times.{seconds_of};

// The largest size that a time is made of: of the times with a sign in 64 bits all but the least.
const MOST: usize = 9223372036854775807;

// The time of this size, as far as times go.
pub fn seconds(negative: bool, size: usize) -> i64
    ensures { result ≡ seconds_of negative size }
{
    let s = size.min(MOST) as i64;
    if negative { -s } else { s }
}

// How many seconds lie between a time and the first of 1970.
pub fn size(t: i64) -> usize
    ensures { result ≡ nat_abs t }
{
    t.unsigned_abs() as usize
}
