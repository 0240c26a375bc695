// A copy's state as a saved file: the mark, the version, the tag behind its count, the length, the runs behind their count, all numbers high byte first.
ghost use Rattle.std.specs.Prelude.{◌≡◌, length};
ghost use Rattle.rules_server.specs.RefusalNumbers.{numbered};
ghost use Rattle.rules_tablet.specs.SavedCopies.{saved_bytes};
ghost use Rattle.writing.specs.Window.{Wrote, write};
ghost use Rattle.copy_bytes.specs.SavedFiles.{save_outcome, save_bytes};

use crate::written::{put_eight, put_in_bytes, put_runs};
use copy::rule::meets_rule;
use rules_server::{Refusal, Run};
use rules_tablet::Copy;
use writing::window::Writer;

// The mark that a saved file begins with.
pub(crate) const MARK: [u8; 3] = *b"HLD";

// The version that is written.
pub(crate) const VERSION: usize = 2;

// A saved file: the mark, the version, the tag behind its count, the length, and the runs behind their count.
fn put_file(w: &mut Writer, tag: &[u8], length: usize, runs: &[Run])
    ensures { Wrote (saved_bytes (record { tag = tag.now; length = length; runs = runs.now })) w.old w.new }
{
    w.put(&MARK);
    put_in_bytes::<2>(w, VERSION);
    put_in_bytes::<1>(w, tag.len());
    w.put(tag);
    put_eight(w, length);
    put_in_bytes::<2>(w, runs.len());
    put_runs(w, runs);
}

// The same from the front of out on.
fn write_file(out: &mut [u8], tag: &[u8], length: usize, runs: &[Run])
    ensures { let text = saved_bytes (record { tag = tag.now; length = length; runs = runs.now }) in
        out.new ≡ (write text (record { bytes = out.old; skip = 0; at = 0 })).bytes }
{
    let mut w = Writer::new(out);
    put_file(&mut w, tag, length, runs);
}

// Saves a copy at the front of out, and gives the length of what is written; or says why it is refused, which leaves out as it was.
pub fn save(c: Copy, out: &mut [u8]) -> Result<usize, Refusal>
    ensures says { numbered result ≡ save_outcome c (length out.old) }
    ensures writes { out.new ≡ save_bytes c out.old }
{
    if !meets_rule(c) {
        return Err(Refusal::Record);
    }
    let tag = c.tag;
    let tag_len = c.tag_len;
    let runs = c.runs;
    let count = c.count;
    let size = 16 + tag_len + 16 * count;
    if out.len() < size {
        return Err(Refusal::Room);
    }
    write_file(out, &tag[..tag_len], c.length, &runs[..count]);
    Ok(size)
}
