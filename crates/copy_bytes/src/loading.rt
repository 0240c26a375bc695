// The copy that a saved file holds.
ghost use Rattle.std.specs.Prelude.{◌≡◌, true, ◌≤◌, length as len};
ghost use Rattle.rules_server.specs.Limits.{max_tag};
ghost use Rattle.rules_server.specs.RefusalNumbers.{numbered};
ghost use Rattle.rules_server.specs.Tags.{is_strong};
ghost use Rattle.copy_bytes.specs.SavedFiles.{record_with, load_outcome};

use crate::runs_read::run_units;
use crate::units::{check_number_units, check_tag_units};
use copy::open;
use octets::numbers::{byte_at, number_at, pair_at};
use rules_server::{Refusal, Run};
use rules_tablet::Copy;

// The record of a copy under a strong tag, with these runs.
fn record_with(tag: &[u8], length: usize, runs: [Run; Copy::MAX_RUNS], count: usize) -> Copy
    requires { (len tag.now ≤ max_tag) × (is_strong tag.now ≡ true) }
    ensures { result ≡ record_with tag.now length runs count }
{
    Copy {
        length,
        runs,
        count,
        ..open(tag, 0, &[]).unwrap()
    }
}

// Loads the copy that a saved file holds, or says why it is refused. What a caller holds is left as it was.
pub fn load(file: &[u8]) -> Result<Copy, Refusal>
    ensures { numbered result ≡ load_outcome file.now }
{
    check_tag_units(file)?;
    let version = pair_at(file, 3);
    let behind = 6 + byte_at(file, 5, 0);
    let numbers = &file[behind..];
    check_number_units(numbers, version)?;
    let length = number_at(numbers, 0);
    let count = pair_at(numbers, 8);
    let rest = &numbers[10..];
    let runs = run_units(rest, length, count)?;
    if 16 * count < rest.len() {
        return Err(Refusal::Trailing);
    }
    Ok(record_with(&file[6..behind], length, runs, count))
}
