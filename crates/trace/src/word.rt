ghost use Rattle.std.specs.Prelude.{◌≡◌, ◌^◌, ◌<◌, ◌≤◌, IfOk, Some};
ghost use Rattle.trace.specs.Words.{word_of, call_of, named_by, map_in};
ghost use Rattle.trace.specs.Faults.{or_fault, written};

use super::fault::WordFault;
use super::fields::{low, seats_word, word};
use station::Call;

/// The call that a word holds.
pub fn read_word(word: u32) -> Result<Call, WordFault>
    ensures reads { result ≡ or_fault WordFault.NotACall (call_of word) }
    ensures back { IfOk result (λ call. (word_of call ≡ word) × (map_in call ≤ 65535)) }
{
    // A spare bit that is set does not come back when the call is written.
    named(word)
        .filter(|call| packed(*call) == word)
        .ok_or(WordFault::NotACall)
}

/// The word that holds a call.
pub fn write_word(call: Call) -> Result<u32, WordFault>
    ensures writes { result ≡ written call }
    ensures back { IfOk result (λ word. (call_of word ≡ Some call) × (word < 2 ^ 32)) }
{
    match call {
        Call::Write(_, map) if map > 0xffff => Err(WordFault::MapTooLarge),
        _ => Ok(packed(call)),
    }
}

/// The call that the fields of a word name, whatever its spare bits are.
fn named(word: u32) -> Option<Call>
    ensures { result ≡ named_by word }
{
    let seat = low::<8>(word >> 20) as u8;
    let second = low::<8>(word >> 12) as u8;
    // A kind's number stands here and in `packed`, beside its call: an enum of the kinds would be a third list of them.
    match word >> 28 {
        1 => Some(Call::Open(seat)),
        2 => Some(Call::Join(seat)),
        3 => Some(Call::Leave(seat)),
        4 => Some(Call::Start),
        5 => Some(Call::Finish(seat)),
        6 => Some(Call::Write(seat, low::<16>(word))),
        7 => Some(Call::Strike(seat)),
        8 => Some(Call::Read),
        9 => Some(Call::Earlier(seat, second)),
        10 => Some(Call::Newer(seat, second)),
        11 => Some(Call::Label(seat)),
        _ => None,
    }
}

/// The word of a call whose map number, if it has one, fits 16 bits. The call is read back from it.
fn packed(call: Call) -> u32
    requires { map_in call ≤ 65535 }
    ensures is { result ≡ word_of call }
    ensures back { call_of result ≡ Some call }
{
    match call {
        Call::Open(seats) => word(1, seats, 0),
        Call::Join(seat) => word(2, seat, 0),
        Call::Leave(seat) => word(3, seat, 0),
        Call::Start => word(4, 0, 0),
        Call::Finish(seat) => word(5, seat, 0),
        Call::Write(seat, map) => word(6, seat, map),
        Call::Strike(seat) => word(7, seat, 0),
        Call::Read => word(8, 0, 0),
        Call::Earlier(first, second) => seats_word(9, first, second),
        Call::Newer(first, second) => seats_word(10, first, second),
        Call::Label(seat) => word(11, seat, 0),
    }
}
