//! Tests of compositions and piles.

#![tactic(auto)]

#[cfg(test)]
mod tests;
