// The size of a copy's runs as a list in bytes, and of a saved file.
ghost use Rattle.std.specs.Prelude.{◌≡◌};
ghost use Rattle.rules_tablet.specs.SavedCopies.{max_saved};
ghost use Rattle.copy_bytes.specs.Sizes.{runs_size};

use rules_server::Limits;
use rules_tablet::Copy;

// The bytes of a list of runs: its count, and two numbers for each run.
pub const RUNS_SIZE: usize = 8 + 16 * Copy::MAX_RUNS;

// The same, for those who cannot name a constant.
pub fn runs_size() -> usize
    ensures { result ≡ runs_size }
{
    RUNS_SIZE
}

// The most bytes of a saved file: all but the tag and the runs, the longest tag, and the most runs.
pub const MAX_SAVED: usize = 16 + Limits::MAX_TAG + 16 * Copy::MAX_RUNS;

// The same, for those who cannot name a constant.
pub fn max_saved() -> usize
    ensures { result ≡ max_saved }
{
    MAX_SAVED
}
