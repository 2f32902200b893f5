//! The plain label systems: triangle, heptad and counter.

#![tactic(auto)]

mod counter;
mod heptad;
mod refusal;
#[cfg(test)]
mod tests;
mod triangle;

pub use counter::Counter;
pub use heptad::Heptad;
pub use refusal::CounterRefusal;
pub use triangle::Triangle;
