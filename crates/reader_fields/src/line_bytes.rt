// The bytes at the front of a piece that may stand in a line, many tested at once.
ghost use Rattle.std.specs.Prelude.{◌≡◌, ◌+◌, ◌≤◌, min, length, take_while, drop};
ghost use Rattle.rules_server.specs.Octets.{all};
ghost use Rattle.rules_tablet.specs.Lines.{is_line_byte};
ghost use Rattle.reader_fields.specs.Runs.{leading};

use crate::bytes::is_line_byte;

// How many bytes are tested at once.
const BLOCK: usize = 16;

// Every byte may stand in a line: the loop looks at every byte, so that many are tested at once.
// The test is written out by `&` and `|`: through `is_line_byte`, which branches, 400 bytes take 13 times as long.
fn all_fit(part: &[u8]) -> bool
    ensures { result ≡ all is_line_byte part.now }
{
    let mut fit = true;
    for b in part {
        fit = fit & ((*b == b'\t') | ((b' ' <= *b) & (*b != 0x7F)));
    }
    fit
}

// A number of bytes at the front that may stand in a line, by blocks.
fn fit_blocks(part: &[u8]) -> usize
    ensures within { result ≤ length part.now }
    ensures rest { leading part.now ≡ result + leading (drop result part.now) }
{
    let blocks = part.chunks_exact(BLOCK);
    BLOCK * blocks.take_while(|block| all_fit(block)).count()
}

// How many bytes at the front of the piece, at most `most`, may stand in a line.
pub fn line_run(piece: &[u8], most: usize) -> usize
    ensures { result ≡ min most (leading piece.now) }
{
    let front = &piece[..most.min(piece.len())];
    let passed = fit_blocks(front);
    passed + fit_bytes(&front[passed..])
}

// How many bytes at the front may stand in a line, byte by byte.
fn fit_bytes(part: &[u8]) -> usize
    ensures { result ≡ length (take_while is_line_byte part.now) }
{
    part.iter().take_while(|b| is_line_byte(**b)).count()
}
