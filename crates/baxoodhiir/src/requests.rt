// The request for what a copy lacks, where the copy is a tag, a length and a list of runs in bytes.
ghost use Rattle.rules_server.specs.RefusalNumbers.{numbered};
ghost use Rattle.baxoodhiir.specs.Requests.{request_number, request_length, RequestIs};

use copy_bytes::from_list;
use rules_server::Refusal;

// The request at the front of out; or a refusal, which leaves out as it was.
pub fn request(tag: &[u8], length: usize, runs: &[u8], out: &mut [u8]) -> Result<usize, Refusal>
    ensures { RequestIs tag.now length runs.now out.old (request_number (numbered result)) (request_length (numbered result)) out.new }
{
    let copy = from_list(tag, length, runs)?;
    copy_request::request(copy, out)
}
