//! Runs stations over lists of calls, with all that is promised of a station's life.

#![tactic(auto)]

mod runs;
mod serving;
#[cfg(test)]
mod tests;

pub use runs::{Both, run, run_both, run_piles};
