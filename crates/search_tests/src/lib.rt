//! Tests of the searches for head and tail.

#![tactic(auto)]

#[cfg(test)]
mod tests;
