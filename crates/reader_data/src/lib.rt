// Data of an answer into the copy's buffer, a whole stretch of positions at once: positions that are not held are stored, the bytes of held positions are
// compared.
#![tactic(auto)]

mod agreement; // How far two byte strings agree.

ghost use Rattle.std.specs.Prelude.{◌≡◌, ◌≤◌, length, IfSome};
ghost use Rattle.std.proofs.lemmas.List.Edits.{sets};
ghost use Rattle.copy.specs.Lists.{runs_in};
ghost use Rattle.reader_data.specs.Stretches.{said, Compared, Counted, StretchIs};

use crate::agreement::first_difference;
use copy::insertion::add_span;
use copy::runs::{Kind, RunList, locate, size};
use octets::overwrites::overwrite;
use rules_server::Refusal;
use rules_tablet::Copy;

// What a stretch leaves: the runs, how many bytes of the piece were taken, and why the first is refused, where it is.
#[derive(Clone, Copy)]
pub struct Stretch {
    pub runs: RunList,
    pub taken: usize,
    pub refusal: Option<Refusal>,
}

// The data writer: it is lent the part of the buffer from the next position on, and fills that part only.
fn fill(part: &mut [u8], src: &[u8])
    requires { length src.now ≤ length part.old }
    ensures { part.new ≡ sets part.old 0 src.now }
{
    overwrite(part, 0, src);
}

// No byte is taken.
fn untaken(l: RunList, refusal: Option<Refusal>) -> Stretch
    ensures { result ≡ record { runs = l; taken = 0; refusal = refusal } }
{
    Stretch {
        runs: l,
        taken: 0,
        refusal,
    }
}

// The bytes of held positions, compared.
fn compared(l: RunList, held: &[u8], src: &[u8]) -> Stretch
    ensures is { Compared l held.now src.now (said result) }
    ensures refused { IfSome result.refusal (λ why. (result.taken ≡ 0) × (result.runs ≡ l)) }
{
    let taken = first_difference(held, src);
    if taken == 0 {
        return untaken(l, Some(Refusal::Differs));
    }
    Stretch {
        runs: l,
        taken,
        refusal: None,
    }
}

// How many runs there are at most with a position of this kind.
fn count_with(l: RunList, kind: Kind) -> usize
    ensures { Counted kind (runs_in l) result }
{
    let count = size(l);
    match kind {
        Kind::Apart => count + 1,
        _ => count,
    }
}

// Bytes of the piece, at most `most`, for the positions from next on: as many as lie in one stretch that is held, or in one that is not.
// Where the first is refused, none is taken, and the runs and the buffer are as they were.
pub fn store_stretch(
    l: RunList,
    buffer: &mut [u8],
    next: usize,
    piece: &[u8],
    most: usize,
) -> Stretch
    ensures is { StretchIs l buffer.old next piece.now most (said result) buffer.new }
    ensures refused { IfSome result.refusal (λ why. (result.taken ≡ 0) × (result.runs ≡ l)) }
{
    let n = buffer.len();
    let offered = most.min(piece.len()).min(n.saturating_sub(next));
    if offered == 0 {
        return untaken(l, None);
    }
    let w = locate(l, next, n);
    if let Kind::InRun = w.kind {
        let k = (offered - 1).min(w.end - next) + 1;
        return compared(l, &buffer[next..next + k], &piece[..k]);
    }
    if Copy::MAX_RUNS < count_with(l, w.kind) {
        return untaken(l, Some(Refusal::ManyRuns));
    }
    let k = offered.min(w.end.saturating_sub(next));
    if k == 0 {
        return untaken(l, None);
    }
    fill(&mut buffer[next..], &piece[..k]);
    Stretch {
        runs: add_span(l, w, next, next + (k - 1)),
        taken: k,
        refusal: None,
    }
}
