//! From the bytes of a trace to its listing.

#![tactic(auto)]

mod fault;
mod playing;
mod stepping;
#[cfg(test)]
mod tests;
mod traces;
mod words;

pub use fault::{Cause, ReplayFault};
pub use stepping::step;
pub use traces::listing;
