ghost use Rattle.std.specs.Prelude.{◌≡◌};
ghost use Rattle.lines.specs.Replies.{outcome as outcome_of, entry_for};

use super::answered::Answered;
use super::entry::Entry;
use station::{Answer, Call, Refusal};

/// The number in place of an answer that is not its call's. A station gives none such, and no refusal has this number.
// A number and no `Option`: by a rule of the project a line tells any number of 8 bits.
const MISPLACED: u8 = 0;

/// The entry for a station's reply to a call.
pub fn entry_of(call: Call, reply: Result<Answer, Refusal>) -> Entry
    ensures { result ≡ entry_for call reply }
{
    match call {
        Call::Open(_) => Entry::Open(outcome(reply)),
        Call::Join(_) => Entry::Join(outcome(reply)),
        Call::Leave(_) => Entry::Leave(outcome(reply)),
        Call::Start => Entry::Start(outcome(reply)),
        Call::Finish(_) => Entry::Finish(outcome(reply)),
        Call::Write(_, _) => Entry::Write(outcome(reply)),
        Call::Strike(_) => Entry::Strike(outcome(reply)),
        Call::Read => Entry::Read(outcome(reply)),
        Call::Earlier(_, _) => Entry::Earlier(outcome(reply)),
        Call::Newer(_, _) => Entry::Newer(outcome(reply)),
        Call::Label(_) => Entry::Label(outcome(reply)),
    }
}

/// What a call's reply tells: what the call answers, or its refusal's number.
fn outcome<T: Answered>(reply: Result<Answer, Refusal>) -> Result<T, u8>
    ensures { result ≡ outcome_of T.part_in reply }
{
    let answer = reply.map_err(|refusal| refusal.reason.number())?;
    T::part_of(answer).ok_or(MISPLACED)
}
