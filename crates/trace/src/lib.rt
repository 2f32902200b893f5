//! Trace words: the calls of a station, one to a word of 32 bits, after a head that names the pile.

#![tactic(auto)]

mod bytes;
mod fault;
mod fields;
mod head;
mod pile;
mod word;

pub use bytes::next_word;
pub use fault::WordFault;
pub use head::read_head;
pub use pile::Pile;
pub use word::{read_word, write_word};

#[cfg(test)]
mod tests;
