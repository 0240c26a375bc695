// The place of a byte in a byte string.
ghost use Rattle.std.specs.Prelude.{◌≡◌, ◌++◌, ◌≤◌, length, take, drop};
ghost use Rattle.rules_server.specs.Octets.{before};

use crate::blocks::none_is;

// How many bytes are tested at once.
const BLOCK: usize = 16;

// A number of bytes that stand before the first c, by blocks.
fn blocks_before(v: &[u8], c: u8) -> usize
    ensures within { result ≤ length v.now }
    ensures rest { take result v.now ++ before c (drop result v.now) ≡ before c v.now }
{
    let blocks = v.chunks_exact(BLOCK);
    BLOCK * blocks.take_while(|block| none_is(block, c)).count()
}

// How many bytes stand before the first c, all of them if there is none.
pub fn index_of(v: &[u8], c: u8) -> usize
    ensures within { result ≤ length v.now }
    ensures rest { take result v.now ≡ before c v.now }
{
    let passed = blocks_before(v, c);
    passed + v[passed..].iter().take_while(|x| **x != c).count()
}
