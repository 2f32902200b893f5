ghost use Rattle.std.specs.Prelude.{◌≡◌};

use thiserror::Error;

/// Why a line is not written.
#[derive(Clone, Copy, PartialEq, Eq, Debug, Error)]
pub enum LineFault {
    #[error("the buffer has fewer than 32 bytes")]
    ShortBuffer = 19,
}

impl LineFault {
    ghost use Rattle.lines.specs.Faults.{fault_number};

    /// The number under which the fault is known.
    pub fn number(&self) -> u8
        ensures { result ≡ fault_number self.now }
    {
        // A line in each such enum, since a cast names the type that it is from.
        *self as u8
    }
}
