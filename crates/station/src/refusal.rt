ghost use Rattle.std.specs.Prelude.{◌≡◌};

use thiserror::Error;

/// Why a call is refused: the question that is answered no, with the number under which it is known.
#[derive(Clone, Copy, PartialEq, Eq, Debug, Error)]
pub enum Reason {
    #[error("the station has seats already")]
    AlreadyOpen = 1,
    #[error("the number of seats is not from 1 to 20")]
    SeatCount = 2,
    #[error("the system's order does not reach the number of seats")]
    OrderTooSmall = 3,
    #[error("the seat is not one of the station's")]
    NoSuchSeat = 4,
    #[error("the map number is above 65,535")]
    MapTooLarge = 5,
    #[error("the seat is not idle")]
    NotIdle = 6,
    #[error("the seat does not wait")]
    NotWaiting = 7,
    #[error("the seat does not hold the start")]
    NotHolding = 8,
    #[error("a seat holds the start")]
    StartTaken = 9,
    #[error("the waiting seats have no tail")]
    NobodyWaits = 10,
    #[error("the seat has no standing writing")]
    NoWriting = 11,
    #[error("the standing writings have no head")]
    NothingStands = 12,
    #[error("the system chooses no label")]
    NoLabelLeft = 13,
}

/// A refused call: why, and about which seat; 0 where the call names none.
// A seat's number and no Option, by a rule of the project: 0 is told where no seat is named.
#[derive(Clone, Copy, PartialEq, Eq, Debug, Error)]
#[error("{reason} (seat {seat})")]
pub struct Refusal {
    pub reason: Reason,
    pub seat: u8,
}

impl Reason {
    ghost use Rattle.station.specs.Numbers.{number};

    /// The number under which the reason is known.
    pub fn number(&self) -> u8
        ensures { result ≡ number self.now }
    {
        // A line in each such enum, since a cast names the type that it is from.
        *self as u8
    }

    /// The refusal for this reason, about a seat.
    pub(crate) fn about(self, seat: u8) -> Refusal
        ensures { result ≡ record { reason = self; seat = seat } }
    {
        Refusal { reason: self, seat }
    }
}
