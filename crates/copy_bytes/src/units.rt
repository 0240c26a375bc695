// The units of a saved file before its runs: each is judged once whole, from the front.
ghost use Rattle.std.specs.Prelude.{◌≡◌};
ghost use Rattle.rules_server.specs.RefusalNumbers.{numbered};
ghost use Rattle.rules_tablet.specs.SavedCopies.{most_runs, mark_unit, version_unit, tag_count_unit, tag_unit, length_unit};
ghost use Rattle.rules_tablet.specs.SavedCopies.{run_count_unit, blank_draft, unit_refusal};
ghost use Rattle.copy_bytes.specs.SavedFiles.{versioned, counted, refusal_in, TagUnitsSay, NumberUnitsSay};

use crate::saving::{MARK, VERSION};
use entity_tags::is_strong;
use octets::numbers::{byte_at, number_at, pair_at};
use octets::strings::same;
use rules_server::{Limits, Refusal};
use rules_tablet::Copy;

// The first version of a saved file, and the most runs in a file of it.
const FIRST_VERSION: usize = 1;

const VERSION_ONE_RUNS: usize = 32;

// Whether the mark that bytes begin with is right.
fn check_mark(rest: &[u8]) -> Result<(), Refusal>
    ensures { refusal_in result ≡ unit_refusal blank_draft mark_unit rest.now }
{
    if rest.len() < 3 {
        return Err(Refusal::CutShort);
    }
    if !same(&rest[0..3], &MARK) {
        return Err(Refusal::Mark);
    }
    Ok(())
}

// Whether the version is right.
fn check_version(rest: &[u8]) -> Result<(), Refusal>
    ensures { refusal_in result ≡ unit_refusal blank_draft version_unit rest.now }
{
    if rest.len() < 2 {
        return Err(Refusal::CutShort);
    }
    let version = pair_at(rest, 0);
    if (FIRST_VERSION <= version) & (version <= VERSION) {
        return Ok(());
    }
    Err(Refusal::Version)
}

// Whether the count of the tag's bytes is right.
fn check_tag_count(rest: &[u8]) -> Result<(), Refusal>
    ensures { refusal_in result ≡ unit_refusal blank_draft tag_count_unit rest.now }
{
    if rest.is_empty() {
        return Err(Refusal::CutShort);
    }
    if Limits::MAX_TAG < byte_at(rest, 0, 0) {
        return Err(Refusal::SavedTag);
    }
    Ok(())
}

// Whether a tag of k bytes is right.
fn check_tag(rest: &[u8], k: usize) -> Result<(), Refusal>
    ensures { refusal_in result ≡ unit_refusal (counted k) tag_unit rest.now }
{
    if rest.len() < k {
        return Err(Refusal::CutShort);
    }
    if is_strong(&rest[0..k]) {
        return Ok(());
    }
    Err(Refusal::SavedTag)
}

// Whether the length is right.
fn check_length(rest: &[u8]) -> Result<(), Refusal>
    ensures { refusal_in result ≡ unit_refusal blank_draft length_unit rest.now }
{
    if rest.len() < 8 {
        return Err(Refusal::CutShort);
    }
    if Limits::MAX_FILE < number_at(rest, 0) {
        return Err(Refusal::SavedLength);
    }
    Ok(())
}

// The most runs that a file of a version has.
fn most_runs(version: usize) -> usize
    ensures { result ≡ most_runs version }
{
    if version == FIRST_VERSION {
        return VERSION_ONE_RUNS;
    }
    Copy::MAX_RUNS
}

// Whether the count of runs is right in a file of a version.
fn check_run_count(rest: &[u8], version: usize) -> Result<(), Refusal>
    ensures { refusal_in result ≡ unit_refusal (versioned version) run_count_unit rest.now }
{
    if rest.len() < 2 {
        return Err(Refusal::CutShort);
    }
    if most_runs(version) < pair_at(rest, 0) {
        return Err(Refusal::RunCount);
    }
    Ok(())
}

// Whether the units up to the tag are right, or the refusal of the first that is not.
pub(crate) fn check_tag_units(file: &[u8]) -> Result<(), Refusal>
    ensures { TagUnitsSay file.now (numbered result) }
{
    check_mark(file)?;
    check_version(&file[3..])?;
    check_tag_count(&file[5..])?;
    check_tag(&file[6..], byte_at(file, 5, 0))
}

// The same of the units behind the tag, the length and the count of runs, in a file of a version.
pub(crate) fn check_number_units(rest: &[u8], version: usize) -> Result<(), Refusal>
    ensures { NumberUnitsSay version rest.now (numbered result) }
{
    check_length(rest)?;
    check_run_count(&rest[8..], version)
}
