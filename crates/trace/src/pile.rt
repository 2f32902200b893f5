ghost use Rattle.std.specs.Prelude.{◌≡◌};
ghost use Rattle.trace.specs.Piles.{pile_number, pile_numbered};
ghost use Rattle.trace.specs.Faults.{or_fault};
ghost use Rattle.trace.specs.declared.fault.WordFault.TheVariants.{NotAHead};

use super::fault::WordFault;

/// The pile that a head names, under its number.
#[derive(Clone, Copy, PartialEq, Eq, Debug)]
pub enum Pile {
    One = 1,
    Two,
    Three,
    Four,
}

impl Pile {
    /// The number by which a head names the pile.
    pub fn number(&self) -> u8
        ensures { result ≡ pile_number self.now }
    {
        // A line in each such enum, since a cast names the type that it is from.
        *self as u8
    }
}

impl TryFrom<u32> for Pile {
    type Error = WordFault;

    ghost try_from_gives = { λ number pile. pile ≡ or_fault NotAHead (pile_numbered number) };

    fn try_from(number: u32) -> Result<Pile, WordFault> {
        match number {
            1 => Ok(Pile::One),
            2 => Ok(Pile::Two),
            3 => Ok(Pile::Three),
            4 => Ok(Pile::Four),
            _ => Err(WordFault::NotAHead),
        }
    }
}
