//! The lines of a listing: what a station replied to each call of a trace.

#![tactic(auto)]

mod answered;
mod draft;
mod entry;
mod line_fault;
mod replies;
#[cfg(test)]
mod tests;
mod writing;

pub use entry::{Entry, Line};
pub use line_fault::LineFault;
pub use replies::entry_of;
pub use writing::write_line;
