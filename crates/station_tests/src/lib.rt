//! Tests of the station.

#![tactic(auto)]

#[cfg(test)]
mod by_theme;
#[cfg(test)]
mod tests;
