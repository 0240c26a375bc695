// A part's data in the file.
ghost use Rattle.std.specs.Prelude.{◌≡◌};
ghost use Rattle.rules_server.specs.Answers.{data_of};

use rules_server::Run;

// The file's bytes in a run.
pub fn data_of(file: &[u8], r: Run) -> &[u8]
    ensures { result.now ≡ data_of file.now r }
{
    let end = r.last.saturating_add(1).min(file.len());
    file.get(r.first..end).unwrap_or(&[])
}
