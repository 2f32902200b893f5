ghost use Rattle.std.specs.Prelude.{◌≡◌};

use thiserror::Error;

/// Why a word is not read, or a call not written.
#[derive(Clone, Copy, PartialEq, Eq, Debug, Error)]
pub enum WordFault {
    #[error("the map number is above 65,535")]
    MapTooLarge = 5,
    #[error("the word is not a head")]
    NotAHead = 17,
    #[error("the word is not a call")]
    NotACall = 18,
}

impl WordFault {
    ghost use Rattle.trace.specs.Faults.{fault_number};

    /// The number under which the fault is known.
    pub fn number(&self) -> u8
        ensures { result ≡ fault_number self.now }
    {
        // A line in each such enum, since a cast names the type that it is from.
        *self as u8
    }
}
