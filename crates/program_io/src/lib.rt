// What the programs share: files, console, packed texts.
#![tactic(auto)]

pub mod arguments; // The program's arguments. What they are no contract can say.
pub mod console; // What programs write to standard output. What comes there no contract can say, and none of the functions that write has a result.
pub mod files; // A stored file by its name, read whole into a lent buffer or written whole from one.
pub mod fills; // A buffer of one byte repeated, which shows what a call wrote.
pub mod packed; // Packed texts: fields one behind the other, each behind its length.
pub mod sums; // Sums that stay within the numbers.
pub mod texts; // Places in a text: the bytes between two of them, where a word ends, and the place behind it.
pub mod times; // Times in seconds since 1970, which may be before it, by a sign and a size.
