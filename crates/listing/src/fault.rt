ghost use Rattle.std.specs.Prelude.{◌≡◌};

use station::Refusal;
use thiserror::Error;
use trace::WordFault;

/// Why a word of a trace is not answered: what refused it, whole.
#[derive(Clone, Copy, PartialEq, Eq, Debug, Error)]
pub enum Cause {
    #[error("the length is not a multiple of 4 from 4 to 16,384 bytes")]
    Length,
    #[error(transparent)]
    Word(WordFault),
    #[error(transparent)]
    Station(Refusal),
}

/// A fault of a replay: its cause, and the index of the word that it is about.
#[derive(Clone, Copy, PartialEq, Eq, Debug, Error)]
#[error("word {index}: {cause}")]
pub struct ReplayFault {
    pub index: u32,
    pub cause: Cause,
}

impl Cause {
    ghost use Rattle.listing.specs.Faults.{cause_number};

    /// The number under which the cause is known.
    pub fn number(&self) -> u8
        ensures { result ≡ cause_number self.now }
    {
        // Two causes carry a value, which has the number, so this is no discriminant.
        match self {
            Cause::Length => 16,
            Cause::Word(fault) => fault.number(),
            Cause::Station(refusal) => refusal.reason.number(),
        }
    }
}

// By hand, as the next: a derived `From` has no contract, and a fault has to carry what refused it whole.
impl From<WordFault> for Cause {
    ghost use Rattle.listing.specs.declared.fault.Cause.TheVariants.{Word};

    ghost from_gives = { λ fault cause. cause ≡ Word fault };

    fn from(fault: WordFault) -> Cause {
        Cause::Word(fault)
    }
}

impl From<Refusal> for Cause {
    ghost use Rattle.listing.specs.declared.fault.Cause.TheVariants.{Station};

    ghost from_gives = { λ refusal cause. cause ≡ Station refusal };

    fn from(refusal: Refusal) -> Cause {
        Cause::Station(refusal)
    }
}
