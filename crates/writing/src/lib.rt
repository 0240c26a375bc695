// Texts, numbers and ranges through a window of a lent buffer.
#![tactic(auto)]

pub mod numbers; // Writing numbers, ranges and line ends into a lent buffer.
pub mod window; // Writing texts one after the other into a lent buffer: each writer passes over what is to be skipped and then writes until the buffer is full.
