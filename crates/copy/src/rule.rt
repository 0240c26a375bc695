// The rule of a copy's record (docs/RECORDS.md).
ghost use Rattle.std.specs.Prelude.{◌≡◌, ◌≤◌};
ghost use Rattle.rules_server.specs.Limits.{max_file};
ghost use Rattle.rules_tablet.specs.Runs.{well_formed};
ghost use Rattle.rules_tablet.specs.Copies.{all_blank, copy_rule};

use entity_tags::is_strong;
use octets::blocks::all_are;
use rules_server::{Limits, Run};
use rules_tablet::Copy;

// The runs are ascending and apart, each begins not behind its end, and all lie below n.
fn well_formed(runs: &[Run], n: usize) -> bool
    requires { n ≤ max_file }
    ensures { result ≡ well_formed 0 n runs.now }
{
    let mut lo = 0;
    for r in runs {
        if r.first < lo || r.last < r.first || n <= r.last {
            return false;
        }
        lo = r.last + 2;
    }
    true
}

// The runs are 0 to 0. The fold looks at every one of them, so that many are tested at once.
fn all_blank(runs: &[Run]) -> bool
    ensures { result ≡ all_blank runs.now }
{
    runs.iter().fold(0, |set, r| set | r.first | r.last) == 0
}

// The record keeps its rule (docs/RECORDS.md): the first `count` runs are ascending, apart and below the length, the others 0 to 0.
#[tactic(auto, unfolding(rules_tablet::specs::Copies::copy_rule))]
pub fn meets_rule(c: Copy) -> bool
    ensures { result ≡ copy_rule c }
{
    let tag = c.tag;
    let tag_len = c.tag_len;
    let runs = c.runs;
    let count = c.count;
    if Limits::MAX_TAG < tag_len || Limits::MAX_FILE < c.length || Copy::MAX_RUNS < count {
        return false;
    }
    if !is_strong(&tag[..tag_len]) || !all_are(&tag[tag_len..], 0) {
        return false;
    }
    well_formed(&runs[..count], c.length) && all_blank(&runs[count..])
}
