// Positions put into a list of runs, joined with the runs that they touch.
ghost use Rattle.std.specs.Prelude.{◌≡◌, ◌∷◌, ◌++◌, suc, ◌+◌, ◌≤◌, ◌<◌, eqb, take, drop};
ghost use Rattle.rules_tablet.specs.Limits.{max_runs};
ghost use Rattle.rules_tablet.specs.Runs.{run};
ghost use Rattle.copy.specs.Lists.{runs_in, in_room};
ghost use Rattle.copy.specs.Steps.{Holding, Holds, lengthened, put_in, span_at};

use crate::runs::{Kind, RunList, Standing, size};
use rules_server::Run;
use rules_tablet::Copy;

// The runs with r put in at `start`, the later ones moved up.
fn moved_up(
    runs: [Run; Copy::MAX_RUNS],
    count: usize,
    start: usize,
    r: Run,
) -> [Run; Copy::MAX_RUNS]
    requires { (count < max_runs) × (start ≤ count) }
    ensures { result ≡ (take start runs ++ r ∷ drop start (take count runs)) ++ drop (count + 1) runs }
{
    let mut moved = runs;
    for i in (start..count).rev() {
        moved[i + 1] = moved[i];
    }
    moved[start] = r;
    moved
}

// The runs without the one at `gone`, the later ones moved down; the place that gets free is blank.
fn moved_down(runs: [Run; Copy::MAX_RUNS], count: usize, gone: usize) -> [Run; Copy::MAX_RUNS]
    requires { (count ≤ max_runs) × (gone < count) }
    ensures { result ≡ (take gone runs ++ drop (gone + 1) (take count runs)) ++ run 0 0 ∷ drop count runs }
{
    let mut kept = runs;
    for j in gone..count - 1 {
        kept[j] = kept[j + 1];
    }
    kept[count - 1] = Run { first: 0, last: 0 };
    kept
}

// The runs with r put in at `start`, where there is room for one run more.
fn put(runs: [Run; Copy::MAX_RUNS], count: usize, start: usize, r: Run) -> RunList
    requires { (count ≤ max_runs) × (start ≤ count) }
    ensures { Holding runs count (in_room (take start runs ++ r ∷ drop start (take count runs)) (take count runs)) result }
{
    if count == Copy::MAX_RUNS {
        return RunList { runs, count };
    }
    RunList {
        runs: moved_up(runs, count, start, r),
        count: count + 1,
    }
}

// A run that begins at `first` follows position b.
fn touches(b: usize, first: usize) -> bool
    ensures { result ≡ eqb first (suc b) }
{
    first.checked_sub(b) == Some(1)
}

// The list with the run at `index` made to end at b, joined with the next where they touch. Where no run has the index, the runs stay.
fn lengthen(l: RunList, index: usize, b: usize) -> RunList
    ensures { Holds l (lengthened index b (runs_in l)) result }
{
    let count = size(l);
    let mut kept = l;
    kept.count = count;
    if count <= index {
        return kept;
    }
    let r = kept.runs[index];
    let first = r.first;
    let next = index + 1;
    if next == count {
        kept.runs[index] = Run { first, last: b };
        return kept;
    }
    let q = kept.runs[next];
    if touches(b, q.first) {
        let last = q.last;
        kept.runs[index] = Run { first, last };
        return RunList {
            runs: moved_down(kept.runs, count, next),
            count: count - 1,
        };
    }
    kept.runs[index] = Run { first, last: b };
    kept
}

// The list with the run p to b put in before the run at `index`, joined with it where they touch. Where the index is beyond the runs, or there is no room for
// one run more, the runs stay.
fn put_in(l: RunList, index: usize, p: usize, b: usize) -> RunList
    ensures { Holds l (put_in index p b (runs_in l)) result }
{
    let count = size(l);
    let runs = l.runs;
    if count < index {
        return RunList { runs, count };
    }
    if count == index {
        return put(runs, count, index, Run { first: p, last: b });
    }
    let mut kept = runs;
    let q = kept[index];
    if touches(b, q.first) {
        let last = q.last;
        kept[index] = Run { first: p, last };
        return RunList { runs: kept, count };
    }
    put(kept, count, index, Run { first: p, last: b })
}

// The list with the positions from p to b, where p stands so.
pub fn add_span(l: RunList, w: Standing, p: usize, b: usize) -> RunList
    ensures { Holds l (span_at w p b (runs_in l)) result }
{
    match w.kind {
        Kind::BehindRun => lengthen(l, w.index, b),
        _ => put_in(l, w.index, p, b),
    }
}
