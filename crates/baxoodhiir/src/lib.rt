// The functions of include/baxoodhiir.h: both ends on numbers and byte strings, for C and for languages that call C. baxoodhiir_c exports them.
#![tactic(auto)]

mod asked; // What C gives by a flag and a value beside it.
mod numbers; // What is said of a request for what a copy lacks, or of saving one, in numbers.
mod outcomes; // What the server end says of a request, in numbers.
mod requests; // The request for what a copy lacks, where the copy is a tag, a length and a list of runs in bytes.
mod saves; // Saving a copy that is a tag, a length and a list of runs in bytes.

ghost use Rattle.std.specs.Prelude.{◌≡◌};
ghost use Rattle.rules_server.specs.Status.{optional_time};
ghost use Rattle.server.specs.Serving.{request as asked, resource};
ghost use Rattle.rules_tablet.specs.SavedCopies.{max_saved};
ghost use Rattle.copy_bytes.specs.Sizes.{runs_size};
ghost use Rattle.baxoodhiir.specs.Requests.{RequestIs};
ghost use Rattle.baxoodhiir.specs.Answers.{AnswerIs};
ghost use Rattle.baxoodhiir.specs.Reads.{report_number, ReadIs};
ghost use Rattle.baxoodhiir.specs.Saves.{SaveIs, LoadIs};

use crate::asked::{optional_modified, optional_value};
use crate::numbers::numbers_said;
use crate::outcomes::numbers_of;
use copy_bytes::from_list;
use copy_bytes::loading::load;
use copy_bytes::sizes::{RUNS_SIZE, max_saved, runs_size};
use copy_bytes::written::put_list;
use octets::overwrites::overwrite;
use reader::fresh::begin;
use reader::pieces::feed_pieces;
use rules_server::{Limits, Refusal, Request, Resource};
use rules_tablet::Report;
use server::answer;

// The bytes of a list of runs.
pub fn baxoodhiir_runs_size() -> usize
    ensures { result ≡ runs_size }
{
    runs_size()
}

// The most bytes of a saved file.
pub fn baxoodhiir_max_saved() -> usize
    ensures { result ≡ max_saved }
{
    max_saved()
}

// C has neither Option nor Result (include/baxoodhiir.h): a value that may be absent has a flag before it, and a refusal is a number.
// The answer to a request, at the front of out, with its reason's number and its length; or a refusal by its number, which leaves out as it was.
pub fn baxoodhiir_answer(
    method: &[u8],
    has_range: bool,
    range: &[u8],
    has_if_range: bool,
    if_range: &[u8],
    file: &[u8],
    tag: &[u8],
    media: &[u8],
    boundary: &[u8],
    has_modified: bool,
    modified: i64,
    strong: bool,
    reference: i64,
    out: &mut [u8],
    reason: &mut usize,
    written: &mut usize,
) -> usize
    ensures { AnswerIs (asked method.now has_range range.now has_if_range if_range.now)
        (resource file.now tag.now media.now boundary.now (optional_time has_modified modified strong) reference)
        out.old result reason.new written.new out.new }
{
    let request = Request {
        method,
        range: optional_value(has_range, range),
        if_range: optional_value(has_if_range, if_range),
    };
    let resource = Resource {
        file,
        tag,
        media,
        boundary,
        modified: optional_modified(has_modified, modified, strong),
        reference,
    };
    let said = numbers_of(answer(&request, &resource, out));
    *reason = said.reason;
    *written = said.length;
    said.says
}

// The request for what a copy lacks, at the front of out, with its length; or a refusal by its number, which leaves out as it was.
pub fn baxoodhiir_request(
    tag: &[u8],
    length: usize,
    runs: &[u8],
    out: &mut [u8],
    written: &mut usize,
) -> usize
    ensures { RequestIs tag.now length runs.now out.old result written.new out.new }
{
    let asked = numbers_said(crate::requests::request(tag, length, runs, out));
    *written = asked.length;
    asked.number
}

// The number of a report.
fn report_number(report: Report) -> usize
    ensures { result ≡ report_number report }
{
    match report {
        Report::More => 0,
        Report::Finished => 100,
        Report::Refused(k) => k,
    }
}

// Reads an answer, or the front of one, into a copy, in pieces of `piece` bytes, or as one where that is 0.
pub fn baxoodhiir_read(
    tag: &[u8],
    length: usize,
    runs: &mut [u8],
    buffer: &mut [u8],
    answer: &[u8],
    piece: usize,
    taken: &mut usize,
) -> usize
    ensures { ReadIs tag.now length runs.old buffer.old answer.now result taken.new runs.new
        buffer.new }
{
    *taken = 0;
    if buffer.len() != length {
        return Refusal::Record.number();
    }
    let copy = match from_list(tag, length, runs) {
        Ok(copy) => copy,
        Err(no_copy) => return no_copy.number(),
    };
    let fed = feed_pieces(copy, begin(), buffer, piece, piece, answer);
    put_list(runs, fed.copy);
    *taken = fed.taken;
    let report = fed.report;
    report_number(report)
}

// Saves a copy at the front of out, with the length of the saved file; or a refusal by its number, which leaves out as it was.
pub fn baxoodhiir_save(
    tag: &[u8],
    length: usize,
    runs: &[u8],
    out: &mut [u8],
    written: &mut usize,
) -> usize
    ensures { SaveIs tag.now length runs.now out.old result written.new out.new }
{
    let saved = numbers_said(crate::saves::save(tag, length, runs, out));
    *written = saved.length;
    saved.number
}

// Loads the copy that a saved file holds: its tag in the array of the longest tag, with zeros behind it, its length and the list of its runs; or a refusal by
// its number, which leaves them as they were.
pub fn baxoodhiir_load(
    file: &[u8],
    tag: &mut [u8],
    tag_len: &mut usize,
    length: &mut usize,
    runs: &mut [u8],
) -> usize
    ensures { LoadIs file.now (record {
      tag = tag.entry.now;
      tag_length = tag_len.old;
      length = length.old;
      runs = runs.old;
    }) result (record {
      tag = tag.exit.now;
      tag_length = tag_len.new;
      length = length.new;
      runs = runs.new;
    }) }
{
    if tag.len() != Limits::MAX_TAG {
        return Refusal::Record.number();
    }
    if runs.len() != RUNS_SIZE {
        return Refusal::Record.number();
    }
    let copy = match load(file) {
        Ok(copy) => copy,
        Err(refusal) => return refusal.number(),
    };
    let bytes = copy.tag;
    overwrite(tag, 0, &bytes);
    *tag_len = copy.tag_len;
    *length = copy.length;
    put_list(runs, copy);
    0
}
