// Runs of held positions: how many there are, and where a position stands among them.
ghost use Rattle.std.specs.Prelude.{◌≡◌};
ghost use Rattle.copy.specs.Lists.{runs_in, Sized};
ghost use Rattle.copy.specs.Looks.{kind_of, look_at};

use rules_server::Run;
use rules_tablet::Copy;

// The first `count` runs are held, ascending. An array with its count, and no Vec: the library has no heap.
#[derive(Clone, Copy)]
pub struct RunList {
    pub runs: [Run; Copy::MAX_RUNS],
    pub count: usize,
}

// How a position stands to the run at an index.
#[derive(Clone, Copy, Debug, PartialEq, Eq)]
pub enum Kind {
    // in the run
    InRun,
    // straight behind its last position
    BehindRun,
    // straight before its first position
    BeforeRun,
    // apart from all runs, before it
    Apart,
}

// The kind that a number stands for: 0 in the run, 1 straight behind it, 2 straight before it; any other number stands for apart.
impl From<usize> for Kind {
    ghost from_gives = { λ number kind. kind ≡ kind_of number };

    fn from(number: usize) -> Kind {
        match number {
            0 => Kind::InRun,
            1 => Kind::BehindRun,
            2 => Kind::BeforeRun,
            _ => Kind::Apart,
        }
    }
}

// Where a position stands among runs: held, in the run at `index`, whose last position is `end`; or else the next run begins at `end`.
#[derive(Clone, Copy, Debug, PartialEq, Eq)]
pub struct Standing {
    pub kind: Kind,
    pub index: usize,
    pub end: usize,
}

// How many runs the list has.
pub fn size(l: RunList) -> usize
    ensures { Sized l result }
{
    l.count.min(Copy::MAX_RUNS)
}

// Where position p stands; where no run follows, the next begins at n.
pub fn locate(l: RunList, p: usize, n: usize) -> Standing
    ensures { result ≡ look_at n p (runs_in l) }
{
    let runs = &l.runs[..size(l)];
    for (index, r) in runs.iter().enumerate() {
        if p < r.first {
            let kind = if r.first - p == 1 {
                Kind::BeforeRun
            } else {
                Kind::Apart
            };
            return Standing {
                kind,
                index,
                end: r.first,
            };
        }
        if p <= r.last {
            return Standing {
                kind: Kind::InRun,
                index,
                end: r.last,
            };
        }
        if p - r.last == 1 {
            return Standing {
                kind: Kind::BehindRun,
                index,
                end: runs.get(index + 1).map_or(n, |next| next.first),
            };
        }
    }
    Standing {
        kind: Kind::Apart,
        index: runs.len(),
        end: n,
    }
}
