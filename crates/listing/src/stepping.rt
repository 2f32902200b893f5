ghost use Rattle.std.specs.Prelude.{◌≡◌};
ghost use Rattle.station.specs.View.{table};
ghost use Rattle.trace.specs.Words.{call_of};
ghost use Rattle.listing.specs.Steps.{answered, left, Stepped};

use super::fault::{Cause, ReplayFault};
use labels::LabelSystem;
use station::{Answer, Station};
use trace::read_word;

/// Puts the call that a word holds to a station. A fault carries what refused it, whole, with the word's index.
pub fn step<S: LabelSystem>(
    station: &mut Station<S>,
    index: u32,
    word: u32,
) -> Result<Answer, ReplayFault>
    ensures stepped { Stepped (S.meaning station.old.system) (table station.old) (table station.new) index word result }
    ensures system { station.new.system ≡ station.old.system }
{
    answer_word(station, word).map_err(|cause| ReplayFault { index, cause })
}

// That the system stays is told here, by `step` and by `list_word`: a record with what a step leaves is no shorter.
fn answer_word<S: LabelSystem>(station: &mut Station<S>, word: u32) -> Result<Answer, Cause>
    ensures answers { result ≡ answered (S.meaning station.old.system) (table station.old) (call_of word) }
    ensures leaves { table station.new ≡ left (S.meaning station.old.system) (table station.old) (call_of word) }
    ensures system { station.new.system ≡ station.old.system }
{
    let call = read_word(word)?;
    Ok(station.serve(call)?)
}
