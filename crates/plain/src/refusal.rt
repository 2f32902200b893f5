ghost use Rattle.std.specs.Prelude.{◌≡◌};

use thiserror::Error;

/// Why a counter was not made.
#[derive(Clone, Copy, PartialEq, Eq, Debug, Error)]
pub enum CounterRefusal {
    #[error("the order is not from 1 to 20")]
    Order = 14,
    #[error("the ceiling is not from 1 to 2^28")]
    Ceiling = 15,
}

impl CounterRefusal {
    ghost use Rattle.plain.specs.Refusals.{number};

    /// The number under which the refusal is known.
    pub fn number(&self) -> u8
        ensures { result ≡ number self.now }
    {
        // A line in each such enum, since a cast names the type that it is from.
        *self as u8
    }
}
