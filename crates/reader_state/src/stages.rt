// What a stage of the reader is to the loop over a piece.
ghost use Rattle.std.specs.Prelude.{◌≡◌};
ghost use Rattle.rules_tablet.specs.Parsers.{is_refused};
ghost use Rattle.reader_state.specs.Looks.{look_of};

use rules_tablet::Stage;

// What the next bytes are where a reader stands.
#[derive(Clone, Copy, Debug, PartialEq, Eq)]
pub enum NextBytes {
    // no byte is read any more
    Over,
    // data of a plain body: the next byte's position
    PlainData(usize),
    // data of a part: the next byte's position, and how many bytes are still to come
    PartData(usize, usize),
    // bytes that are skipped
    Skipped,
    // a line of the head
    LineOfHead,
    // a line of a part
    LineOfPart,
    // what stands between parts
    BetweenParts,
}

// What a stage is to the loop.
pub fn look_at(stage: Stage) -> NextBytes
    ensures { result ≡ look_of stage }
{
    match stage {
        Stage::Plain(next) => NextBytes::PlainData(next),
        Stage::Data(next, left) => NextBytes::PartData(next, left),
        Stage::Skip | Stage::Epilogue => NextBytes::Skipped,
        Stage::Status | Stage::Fields => NextBytes::LineOfHead,
        Stage::PartLine => NextBytes::LineOfPart,
        Stage::Finished | Stage::Refused(_) => NextBytes::Over,
        _ => NextBytes::BetweenParts,
    }
}

// The stage is a refusal.
pub fn is_refused(stage: Stage) -> bool
    ensures { result ≡ is_refused stage }
{
    matches!(stage, Stage::Refused(_))
}
