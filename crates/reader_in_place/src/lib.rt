// A reader and a copy that are kept in place: a thin function that calls the one on records by value, and stores the records back.
#![tactic(auto)]

pub mod begin; // A reader that is kept in place, begun anew: the function on records by value, with the record stored back.

ghost use Rattle.reader.specs.Calls.{FedIs};

use rules_tablet::{Copy, Reader, Report};

// How many bytes of a piece were taken, and what the reader says.
#[derive(Clone, Copy)]
pub struct Progress {
    pub taken: usize,
    pub report: Report,
}

// Feeds a piece of an answer to the reader, into the copy. The buffer is the copy's.
pub fn feed(copy: &mut Copy, reader: &mut Reader, buffer: &mut [u8], piece: &[u8]) -> Progress
    ensures { FedIs copy.entry.now reader.old buffer.old piece.now
        (record { copy = copy.exit.now; reader = reader.new; taken = result.taken; report = result.report }) buffer.new }
{
    let fed = reader::feed(*copy, *reader, buffer, piece);
    *copy = fed.copy;
    *reader = fed.reader;
    Progress {
        taken: fed.taken,
        report: fed.report,
    }
}
