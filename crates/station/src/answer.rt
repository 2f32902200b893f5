/// Whom a start went to, and the map number in force, if a writing stands.
#[derive(Clone, Copy, PartialEq, Eq, Debug)]
pub struct Started {
    pub seat: u8,
    pub map: Option<u16>,
}

/// The writing in force: who wrote it, and its map number.
#[derive(Clone, Copy, PartialEq, Eq, Debug)]
pub struct Reading {
    pub seat: u8,
    pub map: u16,
}

/// What an accepted call answers.
#[derive(Clone, Copy, PartialEq, Eq, Debug)]
pub enum Answer {
    Done,
    Started(Started),
    Reading(Reading),
    Verdict(bool),
    Labelled(u32),
}
