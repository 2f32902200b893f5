//! The four piles: label systems that ship ready.

#![tactic(auto)]

mod pile;
mod ready;

pub use pile::{Pile, Shipped};
pub use ready::{Pile1, Pile2, Pile3, Pile4};
