ghost use Rattle.std.specs.Prelude.{◌≡◌, ℕ, map, MatchBool};
ghost use Rattle.search.specs.Search.{head_of, tail_of, LeadsFrom, Finds, FoundWhereLawful};
ghost use Rattle.search.specs.Candidates.{next_best, led_by, OnlyCandidate, Narrows, IsLeading};

use super::entry::Entry;
use super::leads::{Leads, NewerLeads, OlderLeads};
use labels::LabelSystem;

/// A labelled place.
#[derive(Clone, Copy)]
struct Candidate {
    place: usize,
    label: u32,
}

/// The labelled place whose label beats that at every other labelled place.
pub fn head<S: LabelSystem, E: Entry>(system: &S, entries: &[E]) -> Option<usize>
    ensures value { result ≡ head_of (S.meaning system.now) (map E.labelled entries.now) }
    ensures finds { Finds (S.meaning system.now).beats (map E.labelled entries.now) result }
    ensures lawful { FoundWhereLawful (S.meaning system.now) (map E.labelled entries.now) result }
{
    leading(&NewerLeads(system), entries)
}

/// The labelled place whose label is beaten by that at every other labelled place.
pub fn tail<S: LabelSystem, E: Entry>(system: &S, entries: &[E]) -> Option<usize>
    ensures value { result ≡ tail_of (S.meaning system.now) (map E.labelled entries.now) }
    ensures finds { Finds (λ a b. (S.meaning system.now).beats b a) (map E.labelled entries.now) result }
    ensures lawful { FoundWhereLawful (S.meaning system.now) (map E.labelled entries.now) result }
{
    leading(&OlderLeads(system), entries)
}

// `by` and `entries` side by side, since a struct of both would only be taken apart again.
/// Two passes, so that `leads` is called at most twice for each labelled place: a place that leads all others is left by
/// the first pass as its candidate, and the second checks the candidate.
fn leading<L: Leads, E: Entry>(by: &L, entries: &[E]) -> Option<usize>
    ensures { IsLeading (L.relation by.now) (map E.labelled entries.now) result }
{
    let found = narrow(by, entries)?;
    leads_others(by, entries, found).then_some(found.place)
}

/// The one place that can lead all others.
fn narrow<L: Leads, E: Entry>(by: &L, entries: &[E]) -> Option<Candidate>
    ensures { Narrows (L.relation by.now) (map E.labelled entries.now) result }
{
    // By `for` with its index, and not by `fold`: a rule of the project for the passes of a search.
    let mut best = None;
    for (place, entry) in entries.iter().enumerate() {
        best = next_best(by, place, entry.label(), best);
    }
    best
}

/// A labelled place that leads the candidate so far, or comes before any, is the next candidate.
fn next_best<L: Leads>(
    by: &L,
    place: usize,
    label: Option<u32>,
    best: Option<Candidate>,
) -> Option<Candidate>
    ensures { result ≡ next_best (L.relation by.now) place label best }
{
    // By `match`, as `is_led`: with `is_none_or` a search took up to 1.8 times as long.
    match (label, best) {
        (Some(label), Some(found)) if !by.leads(label, found.label) => best,
        (Some(label), _) => Some(Candidate { place, label }),
        (None, _) => best,
    }
}

/// Whether the candidate's label leads the label at every other labelled place; if it does not, no place leads.
#[tactic(auto, using(crate::proofs::Passes::all_led, crate::proofs::Passes::led_next))]
fn leads_others<L: Leads, E: Entry>(by: &L, entries: &[E], found: Candidate) -> bool
    requires { OnlyCandidate (L.relation by.now) (map E.labelled entries.now) found }
    ensures { MatchBool result (LeadsFrom (L.relation by.now) (map E.labelled entries.now) found.place) ((p : ℕ) → LeadsFrom (L.relation by.now) (map E.labelled entries.now) p → ⊥) }
{
    // By `for`, and not by `all`: the same rule.
    for (other, entry) in entries.iter().enumerate() {
        if !is_led(by, found, other, entry.label()) {
            return false;
        }
    }
    true
}

/// Whether a place is the candidate's own, has no label, or has one that the candidate's label leads.
fn is_led<L: Leads>(by: &L, found: Candidate, place: usize, label: Option<u32>) -> bool
    ensures { result ≡ led_by (L.relation by.now) found place label }
{
    match label {
        Some(label) => place == found.place || by.leads(found.label, label),
        None => true,
    }
}
