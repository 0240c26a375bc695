// A copy in bytes. Its runs as a list: the copy that a tag, a length and such a list mean. Its state as a saved file: modules `saving` and `loading`.
#![tactic(auto)]

pub mod loading; // The copy that a saved file holds.
mod runs_read; // The runs of a saved file.
pub mod saving; // A copy's state as a saved file.
pub mod sizes; // The size of a copy's runs as a list in bytes, and of a saved file.
mod units; // The units of a saved file before its runs.
pub mod written; // The list of a copy's runs in bytes, and numbers in bytes, written into a lent buffer.

ghost use Rattle.std.specs.Prelude.{◌≡◌};
ghost use Rattle.rules_server.specs.RefusalNumbers.{numbered};
ghost use Rattle.rules_tablet.specs.Limits.{max_runs};
ghost use Rattle.copy_bytes.specs.Lists.{runs_from, listed};

use crate::runs_read::run_at;
use crate::sizes::RUNS_SIZE;
use copy::open;
use copy::rule::meets_rule;
use octets::numbers::number_at;
use rules_server::{Refusal, Run};
use rules_tablet::Copy;
use std::array;

// The runs whose numbers these bytes are, a list without its count, whether or not they are a copy's.
pub fn runs_from(b: &[u8]) -> [Run; Copy::MAX_RUNS]
    ensures { result ≡ runs_from max_runs b.now }
{
    array::from_fn(|i| run_at(b, 16 * i))
}

// The copy of a tag, a length and a list of runs, or 19 where they are no copy.
pub fn from_list(tag: &[u8], length: usize, runs: &[u8]) -> Result<Copy, Refusal>
    ensures { numbered result ≡ listed tag.now length runs.now }
{
    if runs.len() != RUNS_SIZE {
        return Err(Refusal::Record);
    }
    let fresh = open(tag, 0, &[])?;
    let copy = Copy {
        length,
        runs: runs_from(&runs[8..]),
        count: number_at(runs, 0),
        ..fresh
    };
    if meets_rule(copy) {
        return Ok(copy);
    }
    Err(Refusal::Record)
}
