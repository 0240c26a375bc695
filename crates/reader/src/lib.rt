// A piece of an answer, fed into a copy (document 01, "The tablet's copy and reader").
#![tactic(auto)]

pub mod fed; // What a call of feed leaves (document 01, "The tablet's copy and reader"), of the parts that it works on.
pub mod fresh; // A fresh reader, which keeps its rule beside every copy.
pub mod pieces; // Answers, fed in pieces into a copy (document 01, "The tablet's copy and reader").
mod rule; // The reader's rule (docs/RECORDS.md), beside the copy that the reader is used with.

ghost use Rattle.reader.specs.Calls.{FedIs};

use crate::fed::Fed;
use crate::pieces::feed_pieces;
use rules_tablet::{Copy, Reader};

// Feeds a piece of an answer. The buffer is the copy's, of exactly its length. A record that breaks its rule, or a buffer of another length, is refused by 19,
// and nothing is taken or changed.
pub fn feed(c: Copy, r: Reader, buffer: &mut [u8], piece: &[u8]) -> Fed
    ensures { FedIs c r buffer.old piece.now result buffer.new }
{
    feed_pieces(c, r, buffer, 0, 0, piece)
}
