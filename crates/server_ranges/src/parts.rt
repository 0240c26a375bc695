// The parts of an answer, at the front of a slice: a run is placed among those before it, joined with all that it overlaps or touches.
ghost use Rattle.std.specs.Prelude.{◌≡◌, ◌≤◌, length, Some};
ghost use Rattle.rules_server.specs.Limits.{merge_gap};
ghost use Rattle.rules_server.specs.Parts.{near as nearby, hull as covering};
ghost use Rattle.server_ranges.specs.Listing.{room_of, listing};
ghost use Rattle.server_ranges.specs.Placing.{first_near, Placed};

use rules_server::{Limits, Run};

// Whether two runs overlap, touch or have fewer than MERGE_GAP bytes between them. It makes no sum: a last position may be the largest number.
#[tactic(auto, unfolding(rules_server::specs::Parts::near))]
fn near(r: Run, q: Run) -> bool
    ensures { result ≡ nearby merge_gap r q }
{
    q.first.saturating_sub(r.last) <= Limits::MERGE_GAP
        && r.first.saturating_sub(q.last) <= Limits::MERGE_GAP
}

// From the first position of either to the last of either.
fn hull(r: Run, q: Run) -> Run
    ensures { result ≡ covering r q }
{
    Run {
        first: r.first.min(q.first),
        last: r.last.max(q.last),
    }
}

// The parts that stand in a slice, `count` of them, or all its runs where it has no more.
pub fn listed(count: usize, parts: &[Run]) -> &[Run]
    ensures { result.now ≡ listing count parts.now }
{
    &parts[..count.min(parts.len())]
}

// The index of the first of the runs that is near `r`.
fn first_near(runs: &[Run], r: Run) -> Option<usize>
    ensures { result ≡ first_near r runs.now }
{
    runs.iter().position(|q| near(r, *q))
}

// The run at `k` joined with `r` and with each later one that it meets; the others stay, in their order. Returns how many there are then.
fn absorb(parts: &mut [Run], count: usize, k: usize, r: Run) -> usize
    requires fits { count ≤ room_of parts.old }
    requires first { first_near r (listing count parts.old) ≡ Some k }
    ensures { Placed r count parts.old result parts.new }
{
    let mut h = hull(r, parts[k]);
    let mut j = k + 1;
    // By index: the runs that stay are stored in the slice that is read.
    for i in k + 1..count {
        let q = parts[i];
        if near(h, q) {
            h = hull(h, q);
        } else {
            parts[j] = q;
            j += 1;
        }
    }
    parts[k] = h;
    j
}

// The parts with the run placed among them; one that would be a part too many is left out. Returns how many there are then.
pub(crate) fn place(parts: &mut [Run], count: usize, r: Run) -> usize
    requires { count ≤ room_of parts.old }
    ensures { Placed r count parts.old result parts.new }
{
    match first_near(listed(count, parts), r) {
        Some(k) => absorb(parts, count, k, r),
        None if count < parts.len().min(Limits::MAX_SPECS) => {
            parts[count] = r;
            count + 1
        }
        None => count,
    }
}
