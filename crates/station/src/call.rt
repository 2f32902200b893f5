/// The calls that a station answers.
#[derive(Clone, Copy, PartialEq, Eq, Debug)]
pub enum Call {
    /// Give the station this number of seats.
    Open(u8),
    /// A seat waits for the start.
    Join(u8),
    /// A waiting seat goes idle.
    Leave(u8),
    /// The start goes to the seat that has waited longest.
    Start,
    /// The seat that holds the start goes idle.
    Finish(u8),
    /// A seat writes a map number.
    Write(u8, u32),
    /// A seat's standing writing is removed.
    Strike(u8),
    /// Which writing is in force?
    Read,
    /// Does the first of two waiting seats wait longer?
    Earlier(u8, u8),
    /// Is the first of two standing writings the later?
    Newer(u8, u8),
    /// Which label has a standing writing?
    Label(u8),
}
