// A reader without its arrays, and each change of it.
#![tactic(auto)]

pub mod line; // One byte of a line.
pub mod sizes; // The sizes of the arrays that a reader's line, kept tag and boundary stand in.
pub mod stages; // What a stage of the reader is to the loop over a piece.

ghost use Rattle.std.specs.Prelude.{◌≡◌};
ghost use Rattle.rules_server.specs.RefusalNumbers.{refusal_number};
ghost use Rattle.reader_state.specs.States.{state_at, state_line, state_head, state_part, state_framing};
ghost use Rattle.rules_tablet.specs.declared.Stage.TheVariants.{Refused};

use rules_server::Refusal;
use rules_tablet::{Framing, Head, PartHead, Stage};

// A reader without its arrays. These stay in the record, of fixed size, lent beside the scalars with their lengths here: no array moves for a byte.
// A record may hold any lengths, so a state has no invariant: each step says that it keeps `Within`, and those that need it ask for it.
#[derive(Clone, Copy)]
pub struct ReaderState {
    pub stage: Stage,
    pub framing: Framing,
    pub line_len: usize,
    pub cr: bool,
    pub head: Head,
    pub part: PartHead,
    pub tag_len: usize,
    pub boundary_len: usize,
}

// What a byte makes of a line: one byte longer; its CR was seen; whole; broken.
#[derive(Clone, Copy, Debug, PartialEq, Eq)]
pub enum LineOut {
    Going(usize),
    Ending,
    Whole,
    Broken,
}

impl ReaderState {
    // At another stage.
    pub fn with_stage(self, stage: Stage) -> ReaderState
        ensures { result ≡ state_at stage self }
    {
        ReaderState { stage, ..self }
    }

    // Refused.
    pub fn refuse(self, why: Refusal) -> ReaderState
        ensures { result ≡ state_at (Refused (refusal_number why)) self }
    {
        self.with_stage(Stage::Refused(why.number()))
    }

    // With a line of so many bytes, and its CR seen or not.
    pub fn with_line(self, line_len: usize, cr: bool) -> ReaderState
        ensures { result ≡ state_line line_len cr self }
    {
        ReaderState {
            line_len,
            cr,
            ..self
        }
    }

    // With another head, behind its line.
    pub fn with_head(self, head: Head, tag_len: usize, boundary_len: usize) -> ReaderState
        ensures { result ≡ state_head head tag_len boundary_len self }
    {
        ReaderState {
            head,
            tag_len,
            boundary_len,
            ..self.with_line(0, false)
        }
    }

    // With another part, behind its line.
    pub fn with_part(self, part: PartHead) -> ReaderState
        ensures { result ≡ state_part part self }
    {
        let next = self.with_line(0, false);
        ReaderState { part, ..next }
    }

    // With another framing.
    pub fn with_framing(self, framing: Framing) -> ReaderState
        ensures { result ≡ state_framing framing self }
    {
        ReaderState { framing, ..self }
    }
}
