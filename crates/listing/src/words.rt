ghost use Rattle.std.specs.Prelude.{◌≡◌, ◌≤◌, true, false, length, MatchResult};
ghost use Rattle.std.specs.Iterator.{YieldsFirst, item_count};
ghost use Rattle.listing.specs.declared.fault.Cause.TheVariants.{Length};
ghost use Rattle.listing.specs.Listing.{fit_length, words_in};

use super::fault::Cause;
use trace::next_word;

/// The longest trace, in bytes.
const LONGEST: usize = 16_384;

/// The words that are left of a trace: so few that their indices fit.
#[derive(Drop)]
pub(crate) struct Words<'a> {
    bytes: &'a [u8],
    ghost few: { length bytes.now ≤ 16384 },
}

impl<'a> TryFrom<&'a [u8]> for Words<'a> {
    type Error = Cause;

    ghost try_from_gives = { λ trace words. MatchResult words (λ w. (fit_length (length trace.now) ≡ true) × (w.bytes.now ≡ trace.now)) (λ cause. (fit_length (length trace.now) ≡ false) × (cause ≡ Length)) };

    fn try_from(trace: &'a [u8]) -> Result<Words<'a>, Cause> {
        if trace.len() % 4 == 0 && (4..=LONGEST).contains(&trace.len()) {
            Ok(Words { bytes: trace })
        } else {
            Err(Cause::Length)
        }
    }
}

impl<'a> Iterator for Words<'a> {
    type Item = u32;

    ghost next_gives = { YieldsFirst (λ s. words_in s.bytes.now) };

    ghost remaining = { item_count (λ s. words_in s.bytes.now) };

    fn next(&mut self) -> Option<u32> {
        let (word, rest) = next_word(self.bytes)?;
        self.bytes = rest;
        Some(word)
    }
}
