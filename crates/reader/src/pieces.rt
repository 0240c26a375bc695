// Answers, fed in pieces into a copy (document 01, "The tablet's copy and reader").
ghost use Rattle.std.specs.Prelude.{◌≡◌, true, cond, eqb, ◌+◌, ◌-◌, ◌≤◌, ◌<◌, ◌^◌, min, length, IfSome};
ghost use Rattle.std.proofs.lemmas.List.Edits.{sets};
ghost use Rattle.rules_server.specs.Limits.{max_file};
ghost use Rattle.rules_tablet.specs.Limits.{max_runs, max_size};
ghost use Rattle.reader_text.specs.Steps.{reader_of};
ghost use Rattle.reader.specs.Steps.{state_in, ahead_of, stage_behind, DataFits, Follows, Begins, Placed, RunIs, DataReady, DataIs};
ghost use Rattle.reader.specs.Loops.{AtFirst, gone_on, BytesReady, BytesFed};
ghost use Rattle.reader.specs.Calls.{FeedReady, FedRight, FedIs};

use crate::fed::{Fed, ended, rejected};
use copy::runs::{RunList, locate};
use octets::overwrites::overwrite;
use octets::sizes::lead;
use reader_data::store_stretch;
use reader_head::Wanted;
use reader_state::ReaderState;
use reader_text::text_step;
use rules_server::{Limits, Run};
use rules_tablet::{Copy, Reader, Stage};

// What a step over data leaves: the runs, where the reader stands, the bytes of the body after the next, how many bytes were taken, and an index among the
// runs: that of the run that has the bytes, where any were taken.
#[derive(Clone, Copy)]
struct DataStep {
    runs: RunList,
    stage: Stage,
    after: usize,
    taken: usize,
    index: usize,
}

// Data that comes next: where the reader stands, the bytes of the body after the next, the position of the first byte, and how many bytes may come.
#[derive(Clone, Copy)]
struct DataAhead {
    stage: Stage,
    after: usize,
    next: usize,
    room: usize,
}

// Where a run stands that is made longer or begun: its index, its first position, and how many runs there are then.
#[derive(Clone, Copy)]
struct RunPlace {
    index: usize,
    first: usize,
    count: usize,
}

// What a step that makes one run longer, or begins one behind the last, leaves: the run and its index, how many runs there are, where the reader stands, the
// bytes of the body after the next, how many bytes were taken, and where the piece with the last of them ends.
#[derive(Clone, Copy)]
struct RunStep {
    index: usize,
    run: Run,
    count: usize,
    stage: Stage,
    after: usize,
    taken: usize,
    end: usize,
}

// How far the bytes of an answer are fed: an index among the runs, that of the run that has the last data, or of the last run before there were data; where the
// piece ends that was begun; where feeding ends; and how many bytes were taken.
#[derive(Clone, Copy)]
struct Progress {
    recent: usize,
    end: usize,
    limit: usize,
    i: usize,
}

// What feeding the bytes of an answer leaves: the runs, the reader without its arrays, and how many bytes were taken.
#[derive(Clone, Copy)]
struct FedBytes {
    runs: RunList,
    state: ReaderState,
    taken: usize,
}

// Data comes next: of a plain body all that is counted may come, of a part what is left.
fn data_ahead(stage: Stage, after: usize) -> Option<DataAhead>
    requires { after < max_size }
    ensures { result ≡ ahead_of stage after }
{
    match stage {
        Stage::Plain(next) => Some(DataAhead {
            stage,
            after,
            next,
            room: after + 1,
        }),
        Stage::Data(next, left) => Some(DataAhead {
            stage,
            after,
            next,
            room: left,
        }),
        _ => None,
    }
}

// Where the reader stands behind so many bytes of data.
fn stage_behind(d: DataAhead, taken: usize) -> Stage
    requires { d.next + taken ≤ max_file }
    ensures { result ≡ stage_behind d taken }
{
    let all = d.room <= taken;
    match d.stage {
        Stage::Plain(_) => if all {
            Stage::Finished
        } else {
            Stage::Plain(d.next + taken)
        },
        Stage::Data(_, _) => {
            if all {
                Stage::Delimiter(0)
            } else {
                Stage::Data(d.next + taken, d.room - taken)
            }
        }
        stage => stage,
    }
}

// An index into an array of runs: i where it is one, else the last.
fn within_runs(i: usize) -> usize
    ensures { result ≡ min i (max_runs - 1) }
{
    i.min(Copy::MAX_RUNS - 1)
}

// A step over data of one piece, wherever it goes.
fn stretch_step(l: RunList, d: DataAhead, buffer: &mut [u8], piece: &[u8]) -> DataStep
    requires { DataReady l buffer.old piece.now × DataFits d (length buffer.old) }
    ensures { DataIs l d.stage d.after buffer.old piece.now result buffer.new }
{
    let s = store_stretch(l, buffer, d.next, piece, d.room);
    match s.refusal {
        None => DataStep {
            runs: s.runs,
            stage: stage_behind(d, s.taken),
            after: d.after.saturating_sub(s.taken),
            taken: s.taken,
            index: within_runs(locate(s.runs, d.next, buffer.len()).index),
        },
        Some(why) => DataStep {
            runs: l,
            stage: Stage::Refused(why.number()),
            after: d.after,
            taken: 0,
            index: 0,
        },
    }
}

// The next position follows the run at `recent`, of so many, which ends at `last`; and so many bytes can be stored before the run behind it, which begins at
// `first`, without touching it.
fn follows(
    recent: usize,
    count: usize,
    last: usize,
    first: usize,
    next: usize,
    wanted: usize,
) -> bool
    ensures { result ≡ true → Follows recent count last first next wanted }
{
    let behind = recent < count && last < next && next - last == 1;
    behind && (count - recent == 1 || (next < first && wanted < first - next))
}

// How many of n bytes from position `next` on can be stored before the run behind the one at `recent`, of so many, which begins at `first`, without touching
// it: all where there is no run.
fn free_bytes(recent: usize, count: usize, first: usize, next: usize, n: usize) -> usize
    ensures { result ≤ n }
{
    if count == 0 {
        n
    } else if count <= recent {
        0
    } else if count - recent == 1 {
        n
    } else {
        n.min(first.saturating_sub(next).saturating_sub(1))
    }
}

// There is no run, or the next position stands behind the last of so many, which is at `recent` and ends at `last`, without touching it, and there is room for
// one run more.
fn begins(recent: usize, count: usize, last: usize, next: usize) -> bool
    ensures { result ≡ true → Begins recent count last next }
{
    let last_is_recent = recent < count && count - recent == 1;
    let apart = last < next && next - last != 1;
    count == 0 || (last_is_recent && count < Copy::MAX_RUNS && apart)
}

// The place of so many bytes from position `next` on that touch no run but the one they follow: that of the run q at `recent`, or behind all runs.
fn place_of(
    recent: usize,
    count: usize,
    q: Run,
    x: Run,
    next: usize,
    wanted: usize,
) -> Option<RunPlace>
    ensures { IfSome result (λ r. Placed recent count q x next wanted r) }
{
    if follows(recent, count, q.last, x.first, next, wanted) {
        return Some(RunPlace {
            index: recent,
            first: q.first,
            count,
        });
    }
    if begins(recent, count, q.last, next) {
        return Some(RunPlace {
            index: count,
            first: next,
            count: count + 1,
        });
    }
    None
}

// The end of the piece that has byte i of n: that of the piece before it where it lies there, else behind `size` bytes, or n where that is 0.
fn piece_end(end: usize, i: usize, size: usize, n: usize) -> usize
    requires { (i < n) × (end ≤ n) }
    ensures { (i < result) × (result ≤ n) }
{
    if i < end {
        end
    } else if size == 0 || n - i <= size {
        n
    } else {
        i + size
    }
}

// How many bytes each later piece has, of so many: all of them where `size` is 0.
fn piece_size(size: usize, all: usize) -> usize
    requires { 1 ≤ all }
    ensures { 1 ≤ result }
{
    if size == 0 { all } else { size }
}

// Bytes over the front of `part`, which begins at position `at` of a buffer, from a multiple of 16 on by themselves.
fn store_bytes(part: &mut [u8], at: usize, src: &[u8])
    requires { length src.now ≤ length part.old }
    ensures { part.new ≡ sets part.old 0 src.now }
{
    let k = lead(at, src.len());
    overwrite(part, 0, &src[..k]);
    overwrite(part, k, &src[k..]);
}

// Bytes over the front of `part`, which begins at position `at`, piece by piece: the first piece ends at `first` of n bytes, each later one is of `size` bytes.
// Where the piece with the last of them ends.
// A loop by hand: chunks take 1.3 to 2 times as long where each piece is a byte, and do not tell where the last piece begins.
fn store_pieces(
    part: &mut [u8],
    at: usize,
    src: &[u8],
    first: usize,
    size: usize,
    n: usize,
) -> usize
    requires { (length src.now ≤ length part.old) × (length src.now ≤ n) × (first ≤ n) }
    ensures stored { part.new ≡ sets part.old 0 src.now }
    ensures end { result ≤ n }
{
    if src.len() <= first {
        store_bytes(part, at, src);
        return first;
    }
    let step = piece_size(size, src.len());
    overwrite(part, 0, &src[..first]);
    let mut i = first;
    while step <= src.len() - i {
        overwrite(part, i, &src[i..i + step]);
        i += step;
    }
    if src.len() <= i {
        return i;
    }
    overwrite(part, i, &src[i..]);
    piece_end(i, i, size, n)
}

// A step over data that makes the run q at `recent` longer by bytes that touch no other run, or begins one behind it, where it is the last, or the first of
// all; x is the run behind q, where there is one.
fn run_step(
    recent: usize,
    count: usize,
    q: Run,
    x: Run,
    d: DataAhead,
    buffer: &mut [u8],
    rest: &[u8],
    end: usize,
    size: usize,
) -> Option<RunStep>
    requires { DataFits d (length buffer.old) × (length buffer.old ≤ max_file) × (1 ≤ length rest.now) × (end ≤ length rest.now) }
    ensures { RunIs recent count q x d.stage d.after buffer.old rest.now result buffer.new }
{
    let n = rest.len();
    let k = d.room.min(free_bytes(recent, count, x.first, d.next, n));
    if k == 0 {
        return None;
    }
    let place = place_of(recent, count, q, x, d.next, k)?;
    let far = store_pieces(&mut buffer[d.next..], d.next, &rest[..k], end, size, n);
    Some(RunStep {
        index: place.index,
        run: Run {
            first: place.first,
            last: d.next + (k - 1),
        },
        count: place.count,
        stage: stage_behind(d, k),
        after: d.after.saturating_sub(k),
        taken: k,
        end: far,
    })
}

// The reader without its arrays.
fn state_of(r: Reader) -> ReaderState
    ensures { result ≡ state_in r }
{
    ReaderState {
        stage: r.stage,
        framing: r.framing,
        line_len: r.line_len,
        cr: r.cr,
        head: r.head,
        part: r.part,
        tag_len: r.tag_len,
        boundary_len: r.boundary_len,
    }
}

// The reader of its scalars and its arrays.
fn reader_of(
    s: ReaderState,
    line: [u8; Reader::MAX_LINE],
    tag: [u8; Limits::MAX_TAG],
    boundary: [u8; Limits::MAX_BOUNDARY],
) -> Reader
    ensures { result ≡ reader_of s line tag boundary }
{
    Reader {
        stage: s.stage,
        framing: s.framing,
        line,
        line_len: s.line_len,
        cr: s.cr,
        head: s.head,
        part: s.part,
        tag,
        tag_len: s.tag_len,
        boundary,
        boundary_len: s.boundary_len,
    }
}

// Before the first byte of so many, for a copy of `count` runs.
fn at_first(count: usize, cut: usize, all: usize) -> Progress
    ensures { AtFirst all result }
{
    Progress {
        recent: within_runs(count.saturating_sub(1)),
        end: cut.min(all),
        limit: all,
        i: 0,
    }
}

// Where feeding ends behind a step from i on: there where no byte was taken.
fn limit_behind(i: usize, taken: usize, limit: usize) -> usize
    ensures { result ≡ cond (eqb taken 0) i limit }
{
    if taken == 0 { i } else { limit }
}

// Behind a step that took so many bytes, the last piece of which ends so many bytes behind the first of them.
fn go_on(p: Progress, index: usize, taken: usize, end: usize) -> Progress
    requires { (p.i + taken < 2 ^ 64) × (p.i + end < 2 ^ 64) }
    ensures { result ≡ gone_on p index taken end }
{
    Progress {
        recent: index,
        end: p.i + end,
        limit: limit_behind(p.i, taken, p.limit),
        i: p.i + taken,
    }
}

// Feeds the bytes of an answer in pieces, where the rules are met: the reader is lent its arrays.
// A loop by hand: each step tells how many bytes it took, so no iterator goes over them.
fn feed_bytes(
    held: RunList,
    given: ReaderState,
    line: &mut [u8],
    tag: &mut [u8],
    boundary: &mut [u8],
    copy_tag: &[u8],
    buffer: &mut [u8],
    cut: usize,
    size: usize,
    answer: &[u8],
) -> FedBytes
    requires { BytesReady copy_tag.now buffer.old held given line.old tag.old boundary.old }
    ensures { BytesFed copy_tag.now buffer.old answer.now held given line.old tag.old
        boundary.old result buffer.new line.new tag.new boundary.new }
{
    let mut runs = held;
    let mut s = given;
    let mut stage = s.stage;
    let mut p = at_first(runs.count, cut, answer.len());
    while p.i < p.limit {
        let i = p.i;
        let m = piece_end(p.end, i, size, p.limit) - i;
        let rest = &answer[i..];
        match data_ahead(stage, s.framing.after) {
            Some(d) => {
                let k = p.recent;
                let q = runs.runs[k];
                let x = runs.runs[within_runs(k + 1)];
                if let Some(f) = run_step(k, runs.count, q, x, d, buffer, rest, m, size) {
                    runs.runs[f.index] = f.run;
                    runs.count = f.count;
                    stage = f.stage;
                    s.framing.after = f.after;
                    p = go_on(p, f.index, f.taken, f.end);
                } else {
                    let t = stretch_step(runs, d, buffer, &rest[..m]);
                    runs = t.runs;
                    stage = t.stage;
                    s.framing.after = t.after;
                    p = go_on(p, t.index, t.taken, m);
                }
            }
            None => {
                let y = s.with_stage(stage);
                let wanted = Wanted {
                    tag: copy_tag,
                    length: buffer.len(),
                };
                let t = text_step(y, line, tag, boundary, &wanted, &rest[..m]);
                s = t.state;
                stage = s.stage;
                p = go_on(p, p.recent, t.taken, m);
            }
        }
    }
    let state = s.with_stage(stage);
    let taken = p.i;
    FedBytes { runs, state, taken }
}

// Feeds an answer in pieces where the rules are met.
fn feed_right(c: Copy, r: Reader, buffer: &mut [u8], cut: usize, size: usize, answer: &[u8]) -> Fed
    requires { FeedReady c r buffer.old }
    ensures { FedRight c r buffer.old answer.now result buffer.new }
{
    let own = c.tag;
    let k = c.tag_len;
    let runs = c.runs;
    let count = c.count;
    let l = RunList { runs, count };
    let s = state_of(r);
    let mut line = r.line;
    let mut tag = r.tag;
    let mut boundary = r.boundary;
    let f = feed_bytes(
        l,
        s,
        &mut line,
        &mut tag,
        &mut boundary,
        &own[..k],
        buffer,
        cut,
        size,
        answer,
    );
    let kept = f.runs;
    let left = f.state;
    ended(c, kept, reader_of(left, line, tag, boundary), f.taken)
}

// Feeds an answer in pieces: one up to `cut`, and then each of `size` bytes, or one up to the end where that is 0, as C gives it.
// The buffer is the copy's, of exactly its length. A record that breaks its rule, or a buffer of another length, is refused by 19, and nothing is taken or
// changed.
pub fn feed_pieces(
    c: Copy,
    r: Reader,
    buffer: &mut [u8],
    cut: usize,
    size: usize,
    answer: &[u8],
) -> Fed
    ensures { FedIs c r buffer.old answer.now result buffer.new }
{
    if !copy::rule::meets_rule(c) {
        return rejected(c, r);
    }
    let length = c.length;
    if buffer.len() != length {
        return rejected(c, r);
    }
    if !crate::rule::meets_rule(c, r) {
        return rejected(c, r);
    }
    feed_right(c, r, buffer, cut, size, answer)
}
