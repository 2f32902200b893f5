ghost use Rattle.std.specs.Prelude.{◌≡◌, IfOk, MatchResult};
ghost use Rattle.trace.specs.Piles.{pile_number};
ghost use Rattle.listing.specs.Faults.{cause_number};
ghost use Rattle.listing.specs.Listing.{listing_of, fault_line, over_pile, words_in, EveryTrace};

use super::fault::Cause;
use super::playing::{play, put_line};
use super::words::Words;
use lines::{Entry, Line};
use piles::{Pile1, Pile2, Pile3, Pile4};
use std::alloc::{AllocError, Global};
use trace::{Pile, read_head};

/// The listing of a trace: a line for each word after the head, or for the fault that ends it.
pub fn listing(heap: Global, trace: &[u8]) -> Result<Vec<u8>, AllocError>
    ensures bytes { IfOk result (λ bytes. bytes.items ≡ listing_of trace.now) }
    ensures promised { EveryTrace }
{
    list(heap, trace)
}

fn list(heap: Global, trace: &[u8]) -> Result<Vec<u8>, AllocError>
    ensures { IfOk result (λ bytes. bytes.items ≡ listing_of trace.now) }
{
    match opened(trace) {
        Ok((pile, words)) => list_over(heap, pile, words),
        Err(cause) => only_fault(heap, cause),
    }
}

/// The pile that the head of a trace names, and the words after the head.
fn opened(trace: &[u8]) -> Result<(Pile, Words<'_>), Cause>
    ensures { MatchResult result (λ p. listing_of trace.now ≡ over_pile (pile_number p.0) (words_in p.1.bytes.now)) (λ cause. listing_of trace.now ≡ fault_line 0 (cause_number cause)) }
{
    let mut words = Words::try_from(trace)?;
    // A trace of a fit length has a first word.
    let head = words.next().ok_or(Cause::Length)?;
    let pile = read_head(head)?;
    Ok((pile, words))
}

/// The listing of words over the pile that a head names.
fn list_over(heap: Global, pile: Pile, words: Words) -> Result<Vec<u8>, AllocError>
    ensures { IfOk result (λ bytes. bytes.items ≡ over_pile (pile_number pile) (words_in words.entry.bytes.now)) }
{
    // A `match` and no `dyn`: each pile is a type of its own, and a station keeps its system by value.
    match pile {
        Pile::One => play(heap, Pile1::new(), words),
        Pile::Two => play(heap, Pile2::new(), words),
        Pile::Three => play(heap, Pile3::new(), words),
        Pile::Four => play(heap, Pile4::new(), words),
    }
}

/// The listing of a trace that is not run.
fn only_fault(heap: Global, cause: Cause) -> Result<Vec<u8>, AllocError>
    ensures { IfOk result (λ bytes. bytes.items ≡ fault_line 0 (cause_number cause)) }
{
    let mut out = Vec::new(heap);
    put_line(
        &mut out,
        Line {
            index: 0,
            entry: Entry::Fault(cause.number()),
        },
    )?;
    Ok(out)
}
