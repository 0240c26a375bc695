// Places in a text: the bytes between two of them, where a word ends, and the place behind it.
ghost use Rattle.std.specs.Prelude.{◌≡◌, ◌+◌, ◌-◌, length, take, drop};
ghost use Rattle.rules_server.specs.Octets.{before};
ghost use Rattle.program_io.specs.Ends.{after_word};

use octets::searches::index_of;

// The bytes of v from a to e, as far as v goes.
pub fn part(v: &[u8], a: usize, e: usize) -> &[u8]
    ensures { result.now ≡ take (e - a) (drop a v.now) }
{
    let end = e.min(v.len());
    &v[a.min(end)..end]
}

// Where the word ends that begins at a: at the next c, or at the end of v.
pub fn word_end(v: &[u8], a: usize, c: u8) -> usize
    ensures { result ≡ a + length (before c (drop a v.now)) }
{
    match v.get(a..) {
        Some(rest) => a + index_of(rest, c),
        None => a,
    }
}

// The place behind a word that ends at e, and behind the byte that ends it.
pub fn behind(v: &[u8], e: usize) -> usize
    ensures { result ≡ after_word (length v.now) e }
{
    if e < v.len() { e + 1 } else { e }
}
