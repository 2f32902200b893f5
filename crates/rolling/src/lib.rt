//! A rolling group of holders: the one who has held a label longest gives it back, and a newcomer is given one.

#![tactic(auto)]

ghost use Rattle.std.specs.Prelude.{◌≡◌, ℕ, ◌-◌, ◌<◌, true, ◌↔◌, length, IfOk, slice_index};
ghost use Rattle.rolling.specs.Rolling.{latest, Rolled};

use labels::LabelSystem;
use std::alloc::{AllocError, Global};

/// The labels that `rounds` newcomers are given, oldest first; fewer where the system has none left.
pub fn roll<S: LabelSystem>(heap: Global, system: &S, rounds: usize) -> Result<Vec<u32>, AllocError>
    ensures { IfOk result (λ given. Rolled (S.meaning system.now) rounds given.items) }
{
    let mut given = Vec::new(heap);
    for _round in 0..rounds {
        let Some(label) = system.choose(held_beside(system, given.as_slice())) else {
            return Ok(given);
        };
        given.push(label)?;
    }
    Ok(given)
}

/// Of the labels given so far, oldest first, those still held when the next newcomer comes.
pub fn held_beside<'a, S: LabelSystem>(system: &S, given: &'a [u32]) -> &'a [u32]
    ensures { result.now ≡ latest ((S.meaning system.now).order - 1) given.now }
{
    let others = usize::from(system.order()).saturating_sub(1);
    &given[given.len().saturating_sub(others)..]
}

/// Whether `label` beats every one of `labels`.
pub fn beats_all<S: LabelSystem>(system: &S, label: u32, labels: &[u32]) -> bool
    ensures { (result ≡ true) ↔ ((k : ℕ) → k < length labels.now → (S.meaning system.now).beats label (slice_index labels.now k) ≡ true) }
{
    // By `for`: with `all` it took up to 1.6 times as long.
    for other in labels {
        if !system.beats(label, *other) {
            return false;
        }
    }
    true
}
