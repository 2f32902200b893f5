//! The steps of a composition's choice, over plain lists of numbers.

ghost use Rattle.std.specs.Prelude.{◌≡◌, ◌^◌, ◌<◌, ◌≤◌, true, ◌↔◌, length, IfSome, nat_eq, nat_lt};
ghost use Rattle.std.specs.List.{list_any};
ghost use Rattle.labels.specs.System.{LeadsAt};
ghost use Rattle.labels.specs.Plain.{Distinct};
ghost use Rattle.over.specs.Over.{outer_parts, under, leader, joined};

use labels::{LabelSystem, ShortList};

/// The distinct outer parts of `labels`, in order of first appearance.
#[tactic(auto, using(crate::proofs::Turns::outer_turns))]
pub(crate) fn outer_parts(labels: &[u32], width: u32) -> ShortList
    requires { (length labels.now ≤ 20) × (0 < width) }
    ensures parts { result ≡ outer_parts width labels.now }
    ensures once { Distinct result }
{
    let mut parts = ShortList::new();
    for label in labels {
        let part = *label / width;
        if !holds(parts.as_slice(), part) {
            parts.push(part);
        }
    }
    parts
}

/// Whether `number` is one of `numbers`.
// Not by `contains`, which reads many at a time what has only just been written one by one, and waits for it.
fn holds(numbers: &[u32], number: u32) -> bool
    ensures { result ≡ list_any (λ y. nat_eq y number) numbers.now }
{
    numbers.iter().any(|other| *other == number)
}

/// The inner parts of those labels that have the outer part `part`.
#[tactic(auto, using(crate::proofs::Turns::inner_turns))]
pub(crate) fn inner_parts(labels: &[u32], width: u32, part: u32) -> ShortList
    requires { (length labels.now ≤ 20) × (0 < width) }
    ensures { result ≡ under width part labels.now }
{
    let mut group = ShortList::new();
    for label in labels {
        if *label / width == part {
            group.push(*label % width);
        }
    }
    group
}

/// The part that beats all others, where each stands once.
pub(crate) fn leader<S: LabelSystem>(system: &S, parts: &[u32]) -> Option<u32>
    requires { Distinct parts.now }
    ensures { result ≡ leader (S.meaning system.now).beats parts.now }
{
    // By `for` with its index, and not by `find`: a rule of the project for the steps of a composition.
    for (place, part) in parts.iter().enumerate() {
        if leads(system, parts, place) {
            return Some(*part);
        }
    }
    None
}

/// Whether the part at `place` beats the parts at all other places.
fn leads<S: LabelSystem>(system: &S, parts: &[u32], place: usize) -> bool
    requires { place < length parts.now }
    ensures { (result ≡ true) ↔ LeadsAt (S.meaning system.now).beats parts.now place }
{
    // By `for`, and not by `all`: the same rule.
    for (k, part) in parts.iter().enumerate() {
        if k != place && !system.beats(parts[place], *part) {
            return false;
        }
    }
    true
}

/// Whether a group of inner parts is not full.
pub(crate) fn can_grow(group: &[u32], order: u8) -> bool
    ensures { result ≡ nat_lt (length group.now) order }
{
    group.len() < usize::from(order)
}

/// The label of two parts, unless one of them is none.
pub(crate) fn joined(width: u32, outer: Option<u32>, inner: Option<u32>) -> Option<u32>
    requires { IfSome (joined width outer inner) (λ x. x < 2 ^ 28) }
    ensures { result ≡ joined width outer inner }
{
    // By `let .. else`, by a rule of the project for the steps of a choice.
    let Some(a) = outer else {
        return None;
    };
    let Some(b) = inner else {
        return None;
    };
    Some(a * width + b)
}
