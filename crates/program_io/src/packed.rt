// Packed texts: fields one behind the other, each behind its length. A number is eight bytes, the most significant first. Behind the end of a text every byte
// counts as 0, and a field that the text ends in is as long as the text goes.
ghost use Rattle.std.specs.Prelude.{◌≡◌, drop};
ghost use Rattle.std.specs.Slice.Iter.{chunks_rest, chunks_size};
ghost use Rattle.std.specs.Iterator.Adapters.{take_source, take_count};
ghost use Rattle.octets.specs.Numbers.{number_at};
ghost use Rattle.program_io.specs.Packed.{behind_at, field_at, item_of};

use crate::sums::sum;
use crate::texts::part;
use octets::numbers::number_at;
use std::iter::Take;
use std::slice::Chunks;

// The place behind the field at a place.
pub fn behind(v: &[u8], at: usize) -> usize
    ensures { result ≡ behind_at v.now at }
{
    let rest = v.len().saturating_sub(at);
    if rest <= 8 {
        return v.len();
    }
    at + 8 + number_at(v, at).min(rest - 8)
}

// The field at a place.
pub fn field(v: &[u8], at: usize) -> &[u8]
    ensures { result.now ≡ field_at v.now at }
{
    part(v, sum(at, 8), behind(v, at))
}

// The field with k fields before it. At the end of the text every further field is empty, and none is passed.
pub fn item(v: &[u8], k: usize) -> &[u8]
    ensures { result.now ≡ item_of v.now k }
{
    let mut at = 0;
    for i in 0..k {
        if at == v.len() {
            break;
        }
        at = behind(v, at);
    }
    field(v, at)
}

// The runs of a list of runs in bytes, each of 16 bytes, of which the last may be cut short: as many as the list says, as far as it goes.
pub fn runs_of(list: &[u8]) -> Take<Chunks<'_, u8>>
    ensures count { take_count result ≡ number_at list.now 0 }
    ensures size { chunks_size (take_source result) ≡ 16 }
    ensures rest { chunks_rest (take_source result) ≡ drop 8 list.now }
{
    part(list, 8, list.len())
        .chunks(16)
        .take(number_at(list, 0))
}
