// Saving a copy that is a tag, a length and a list of runs in bytes.
ghost use Rattle.rules_server.specs.RefusalNumbers.{numbered};
ghost use Rattle.baxoodhiir.specs.Saves.{saved_number, saved_length, SaveIs};

use copy_bytes::from_list;
use rules_server::Refusal;

// The saved file at the front of out; or a refusal, which leaves out as it was.
pub fn save(tag: &[u8], length: usize, runs: &[u8], out: &mut [u8]) -> Result<usize, Refusal>
    ensures { SaveIs tag.now length runs.now out.old (saved_number (numbered result)) (saved_length (numbered result)) out.new }
{
    let copy = from_list(tag, length, runs)?;
    copy_bytes::saving::save(copy, out)
}
