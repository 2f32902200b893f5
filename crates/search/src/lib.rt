//! Head and tail: searching a buffer of entries, of which each tells its label or that it has none.

#![tactic(auto)]

mod entry;
mod gather;
mod leads;
mod search;
mod waiting_row;
mod writing_row;

pub use entry::Entry;
pub use gather::labels_in;
pub use search::{head, tail};
pub use waiting_row::WaitingRow;
pub use writing_row::WritingRow;
