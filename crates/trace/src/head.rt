ghost use Rattle.std.specs.Prelude.{◌≡◌, ◌≤◌, IfOk};
ghost use Rattle.trace.specs.Words.{head_word, pile_in_head};
ghost use Rattle.trace.specs.Piles.{pile_number, numbers};
ghost use Rattle.trace.specs.Faults.{or_fault};

use super::fault::WordFault;
use super::pile::Pile;

/// The kind of a head, in its place.
const HEAD: u32 = 0xF000_0000;

/// The pile that a head names.
pub fn read_head(word: u32) -> Result<Pile, WordFault>
    ensures reads { numbers result ≡ or_fault WordFault.NotAHead (pile_in_head word) }
    ensures back { IfOk result (λ pile. (head_word (pile_number pile) ≡ word) × (1 ≤ pile_number pile) × (pile_number pile ≤ 4)) }
{
    // A spare bit that is set makes the number too large for a pile.
    let number = word.checked_sub(HEAD).ok_or(WordFault::NotAHead)?;
    Pile::try_from(number)
}
