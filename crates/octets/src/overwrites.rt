// Bytes put over others.
ghost use Rattle.std.specs.Prelude.{◌≡◌};
ghost use Rattle.octets.specs.Overwriting.{overwritten};

// The bytes of src over those of the part from a place on; where they do not fit, nothing is changed. A single byte is stored by itself, others by a loop: no call
// of the C library is needed where the two may be the same memory.
#[inline(always)]
pub fn overwrite(part: &mut [u8], start: usize, src: &[u8])
    ensures { part.new ≡ overwritten part.old start src.now }
{
    if start <= part.len() && src.len() <= part.len() - start {
        if let [b] = src {
            part[start] = *b;
        } else {
            for i in 0..src.len() {
                part[start + i] = src[i];
            }
        }
    }
}
