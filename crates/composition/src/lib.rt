//! One label system over another.

#![tactic(auto)]

mod composed;
mod steps;

pub use composed::Over;
