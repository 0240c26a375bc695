// The functions of include/baxoodhiir.h for C and for languages that call C: each is the function of its name in baxoodhiir, and promises the same.
#![tactic(auto)]

ghost use Rattle.std.specs.Prelude.{◌≡◌};
ghost use Rattle.rules_server.specs.Status.{optional_time};
ghost use Rattle.server.specs.Serving.{request as asked, resource};
ghost use Rattle.rules_tablet.specs.SavedCopies.{max_saved};
ghost use Rattle.copy_bytes.specs.Sizes.{runs_size};
ghost use Rattle.baxoodhiir.specs.Requests.{RequestIs};
ghost use Rattle.baxoodhiir.specs.Answers.{AnswerIs};
ghost use Rattle.baxoodhiir.specs.Reads.{ReadIs};
ghost use Rattle.baxoodhiir.specs.Saves.{SaveIs, LoadIs};

// The bytes of a list of runs.
#[unsafe(no_mangle)]
pub extern "C" fn baxoodhiir_runs_size() -> usize
    ensures { result ≡ runs_size }
{
    baxoodhiir::baxoodhiir_runs_size()
}

// The most bytes of a saved file.
#[unsafe(no_mangle)]
pub extern "C" fn baxoodhiir_max_saved() -> usize
    ensures { result ≡ max_saved }
{
    baxoodhiir::baxoodhiir_max_saved()
}

// The answer to a request, at the front of out, with its reason's number and its length; or a refusal by its number, which leaves out as it was.
#[unsafe(no_mangle)]
pub extern "C" fn baxoodhiir_answer(
    method: &[u8],
    has_range: bool,
    range: &[u8],
    has_if_range: bool,
    if_range: &[u8],
    file: &[u8],
    tag: &[u8],
    media: &[u8],
    boundary: &[u8],
    has_modified: bool,
    modified: i64,
    strong: bool,
    reference: i64,
    out: &mut [u8],
    reason: &mut usize,
    written: &mut usize,
) -> usize
    ensures { AnswerIs (asked method.now has_range range.now has_if_range if_range.now)
        (resource file.now tag.now media.now boundary.now (optional_time has_modified modified strong) reference)
        out.old result reason.new written.new out.new }
{
    baxoodhiir::baxoodhiir_answer(
        method,
        has_range,
        range,
        has_if_range,
        if_range,
        file,
        tag,
        media,
        boundary,
        has_modified,
        modified,
        strong,
        reference,
        out,
        reason,
        written,
    )
}

// The request for what a copy lacks, at the front of out, with its length; or a refusal by its number, which leaves out as it was.
#[unsafe(no_mangle)]
pub extern "C" fn baxoodhiir_request(
    tag: &[u8],
    length: usize,
    runs: &[u8],
    out: &mut [u8],
    written: &mut usize,
) -> usize
    ensures { RequestIs tag.now length runs.now out.old result written.new out.new }
{
    baxoodhiir::baxoodhiir_request(tag, length, runs, out, written)
}

// Reads an answer, or the front of one, into a copy, in pieces of `piece` bytes, or as one where that is 0.
#[unsafe(no_mangle)]
pub extern "C" fn baxoodhiir_read(
    tag: &[u8],
    length: usize,
    runs: &mut [u8],
    buffer: &mut [u8],
    answer: &[u8],
    piece: usize,
    taken: &mut usize,
) -> usize
    ensures { ReadIs tag.now length runs.old buffer.old answer.now result taken.new runs.new
        buffer.new }
{
    baxoodhiir::baxoodhiir_read(tag, length, runs, buffer, answer, piece, taken)
}

// Saves a copy at the front of out, with the length of the saved file; or a refusal by its number, which leaves out as it was.
#[unsafe(no_mangle)]
pub extern "C" fn baxoodhiir_save(
    tag: &[u8],
    length: usize,
    runs: &[u8],
    out: &mut [u8],
    written: &mut usize,
) -> usize
    ensures { SaveIs tag.now length runs.now out.old result written.new out.new }
{
    baxoodhiir::baxoodhiir_save(tag, length, runs, out, written)
}

// Loads the copy that a saved file holds: its tag in the array of the longest tag, with zeros behind it, its length and the list of its runs; or a refusal by
// its number, which leaves them as they were.
#[unsafe(no_mangle)]
pub extern "C" fn baxoodhiir_load(
    file: &[u8],
    tag: &mut [u8],
    tag_len: &mut usize,
    length: &mut usize,
    runs: &mut [u8],
) -> usize
    ensures { LoadIs file.now (record {
      tag = tag.entry.now;
      tag_length = tag_len.old;
      length = length.old;
      runs = runs.old;
    }) result (record {
      tag = tag.exit.now;
      tag_length = tag_len.new;
      length = length.new;
      runs = runs.new;
    }) }
{
    baxoodhiir::baxoodhiir_load(file, tag, tag_len, length, runs)
}
