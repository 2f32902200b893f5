use station::{Reading, Started};

/// What a station replied to a call, by the call's name; a refused call has its refusal's number.
// A number and no `Reason`: by a rule of the project a line tells any number of 8 bits.
#[derive(Clone, Copy)]
pub enum Entry {
    Open(Result<(), u8>),
    Join(Result<(), u8>),
    Leave(Result<(), u8>),
    Start(Result<Started, u8>),
    Finish(Result<(), u8>),
    Write(Result<(), u8>),
    Strike(Result<(), u8>),
    Read(Result<Reading, u8>),
    Earlier(Result<bool, u8>),
    Newer(Result<bool, u8>),
    Label(Result<u32, u8>),
    /// A fault of the trace in place of a call.
    Fault(u8),
}

/// A line of a listing: a word's number in the trace, and what came of that word.
#[derive(Clone, Copy)]
pub struct Line {
    pub index: u32,
    pub entry: Entry,
}
