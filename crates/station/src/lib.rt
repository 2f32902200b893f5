//! The station: a start line and a map register for up to twenty seats, over any label system.

#![tactic(auto)]

mod answer;
mod call;
mod layout;
mod refusal;
mod row;
mod station;

pub use answer::{Answer, Reading, Started};
pub use call::Call;
pub use refusal::{Reason, Refusal};
pub use station::Station;
