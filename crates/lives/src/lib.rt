//! The lives of a station and what is promised of them: definitions in specs/, lemmas in proofs/.

#![tactic(auto)]
