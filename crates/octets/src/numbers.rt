// Numbers in bytes, the most significant first.
ghost use Rattle.std.specs.Prelude.{◌≡◌, ◌+◌, ◌<◌, get_or};
ghost use Rattle.octets.specs.Numbers.{bytes_at, pair_at, number_at, eight};

use std::array;

// The byte k places behind a place; 0 behind the end.
fn octet(v: &[u8], at: usize, k: usize) -> u8
    ensures { result ≡ get_or v.now (at + k) 0 }
{
    v.get(at.saturating_add(k)).copied().unwrap_or(0)
}

// The byte k places behind a place, as a number; 0 behind the end.
pub fn byte_at(v: &[u8], at: usize, k: usize) -> usize
    ensures is { result ≡ get_or v.now (at + k) 0 }
    ensures small { result < 256 }
{
    usize::from(octet(v, at, k))
}

// N bytes from a place on, where some of them lie behind the end: each of those counts as 0.
#[cold]
fn padded_at<const N: usize>(v: &[u8], at: usize) -> [u8; N]
    ensures { result ≡ bytes_at v.now at 0 N }
{
    array::from_fn(|k| octet(v, at, k))
}

// N bytes from a place on. Behind the end of a text every byte counts as 0. Where all are there they are read at once.
#[inline(always)]
fn bytes_at<const N: usize>(v: &[u8], at: usize) -> [u8; N]
    ensures { result ≡ bytes_at v.now at 0 N }
{
    if at <= v.len() {
        if let Some(whole) = v[at..].first_chunk::<N>() {
            return *whole;
        }
    }
    padded_at(v, at)
}

// The number of two bytes at a place. Behind the end of a text every byte counts as 0.
#[tactic(auto, using(crate::proofs::numbers::Laws::pair_is))]
pub fn pair_at(v: &[u8], at: usize) -> usize
    ensures { result ≡ pair_at v.now at }
{
    usize::from(u16::from_be_bytes(bytes_at(v, at)))
}

// The number at a place. Behind the end of a text every byte counts as 0.
#[inline(always)]
#[tactic(auto, using(crate::proofs::numbers::Laws::number_is))]
pub fn number_at(v: &[u8], at: usize) -> usize
    ensures { result ≡ number_at v.now at }
{
    usize::from_be_bytes(bytes_at(v, at))
}

// The number in eight bytes.
#[tactic(auto, using(crate::proofs::numbers::Laws::eight_is))]
pub fn eight_bytes(n: usize) -> [u8; 8]
    ensures { result ≡ eight n }
{
    n.to_be_bytes()
}
