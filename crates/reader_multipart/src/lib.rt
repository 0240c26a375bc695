// A multipart: delimiters and the lines of a part.
#![tactic(auto)]

pub mod delimiters; // The bytes between the parts of a multipart: empty lines before the first, the delimiters, and what stands behind a delimiter.
pub mod part; // A whole line of a part: a field line, or the empty line that ends its lines.
