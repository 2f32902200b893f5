ghost use Rattle.std.specs.Prelude.{◌≡◌, [], ◌++◌, is_some, IfOk, OnOk};
ghost use Rattle.station.specs.View.{table};
ghost use Rattle.trace.specs.Words.{call_of};
ghost use Rattle.lines.specs.Lines.{line_bytes};
ghost use Rattle.listing.specs.Listing.{listed, words_in};
ghost use Rattle.listing.specs.Steps.{left, entry_from, entry_told, ends as ends-run};

use super::fault::{Cause, ReplayFault};
use super::stepping::step;
use super::words::Words;
use labels::LabelSystem;
use lines::{Entry, Line, entry_of, write_line};
use station::{Answer, Station};
use std::alloc::{AllocError, Global};
use trace::{WordFault, read_word};

/// Puts the words of a trace after its head to a new station, and lists what came of them.
pub(crate) fn play<S: LabelSystem + Drop>(
    heap: Global,
    system: S,
    words: Words,
) -> Result<Vec<u8>, AllocError>
    ensures { IfOk result (λ bytes. bytes.items ≡ listed (S.meaning system) [] 1 (words_in words.entry.bytes.now)) }
{
    let mut station = Station::new(system);
    play_on(heap, &mut station, words)
}

#[tactic(auto, using(crate::proofs::Turns::few_words))]
fn play_on<S: LabelSystem>(
    heap: Global,
    station: &mut Station<S>,
    words: Words,
) -> Result<Vec<u8>, AllocError>
    ensures { IfOk result (λ bytes. bytes.items ≡ listed (S.meaning station.old.system) (table station.old) 1 (words_in words.entry.bytes.now)) }
{
    let mut out = Vec::new(heap);
    for (index, word) in (1..).zip(words) {
        if !list_word(&mut out, station, index, word)? {
            break;
        }
    }
    Ok(out)
}

/// Puts one word to the station and adds its line; answers whether the run goes on.
#[tactic(auto, using(crate::proofs::Turns::entry_is, crate::proofs::Turns::goes_on_is))]
fn list_word<S: LabelSystem>(
    out: &mut Vec<u8>,
    station: &mut Station<S>,
    index: u32,
    word: u32,
) -> Result<bool, AllocError>
    ensures line { OnOk result (out.new.items ≡ out.old.items ++ line_bytes (record { index = index; entry = entry_told (S.meaning station.old.system) (table station.old) (call_of word) })) }
    ensures goes_on { IfOk result (λ more. more ≡ is_some (call_of word)) }
    ensures leaves { table station.new ≡ left (S.meaning station.old.system) (table station.old) (call_of word) }
    ensures system { station.new.system ≡ station.old.system }
{
    let outcome = step(station, index, word);
    let entry = entry_for(word, outcome);
    put_line(out, Line { index, entry })?;
    // A `bool`, since the loop would only turn a `ControlFlow` back into one.
    Ok(!ends(outcome))
}

/// The entry for a word and what came of it.
fn entry_for(word: u32, outcome: Result<Answer, ReplayFault>) -> Entry
    ensures { result ≡ entry_from (call_of word) outcome }
{
    let Ok(call) = read_word(word) else {
        return Entry::Fault(WordFault::NotACall.number());
    };
    match outcome {
        Ok(answer) => entry_of(call, Ok(answer)),
        Err(fault) => match fault.cause {
            Cause::Station(refusal) => entry_of(call, Err(refusal)),
            cause => Entry::Fault(cause.number()),
        },
    }
}

/// Whether the run ends here: a refusal of the station does not end it.
fn ends(outcome: Result<Answer, ReplayFault>) -> bool
    ensures { result ≡ ends-run outcome }
{
    matches!(
        outcome,
        Err(ReplayFault {
            cause: Cause::Length | Cause::Word(_),
            ..
        })
    )
}

/// Adds a line.
pub(crate) fn put_line(out: &mut Vec<u8>, line: Line) -> Result<(), AllocError>
    ensures { OnOk result (out.new.items ≡ out.old.items ++ line_bytes line) }
{
    // An array and the length that is answered, since by the rules a line is written into its caller's buffer.
    let mut buffer = [0; 32];
    let size = write_line(line, &mut buffer).unwrap();
    out.extend_from_slice(&buffer[..usize::from(size)])
}
