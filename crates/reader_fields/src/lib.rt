// A line: its bytes, field names and values, Content-Range.
#![tactic(auto)]

pub mod bytes; // The bytes that may stand in a line of a head or a part.
pub mod content_range; // The value of a Content-Range.
pub mod line_bytes; // The bytes at the front of a piece that may stand in a line, many tested at once.
pub mod lines; // The lines of a head or a part: the token that is a field's name, and its colon.
pub mod names; // The names of the fields that count.
pub mod range_spans; // The positions that the value of a Content-Range field spans.
pub mod range_tests; // Questions to the value of a Content-Range field.
