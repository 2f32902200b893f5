ghost use Rattle.std.specs.Prelude.{◌≡◌, true, ◌↔◌};
ghost use Rattle.labels.specs.Plain.{heptad};
ghost use Rattle.labels.specs.Least.{ChoosesLeast, AheadBySquare};
ghost use Rattle.labels.proofs.Heptad.{heptad_laws};

use labels::{LabelSystem, Size};

const SIZE: Size = Size { order: 3, count: 7 };

/// The Paley tournament on seven points: of any two labels one beats the other, and some label beats both.
#[derive(Clone, Copy)]
pub struct Heptad;

impl LabelSystem for Heptad {
    ghost meaning = { λ _. heptad };

    ghost shows = { λ s. heptad_laws };

    fn order(&self) -> u8 {
        SIZE.order
    }

    fn count(&self) -> u32 {
        SIZE.count
    }

    fn endless(&self) -> bool {
        true
    }

    #[tactic(auto, using(labels::proofs::Heptad::heptad_beats))]
    fn beats(&self, a: u32, b: u32) -> bool
        ensures { (result ≡ heptad.beats a b) × ((result ≡ true) ↔ AheadBySquare a b) }
    {
        ahead_by_square(a, b)
    }

    #[tactic(auto, using(labels::proofs::Heptad::heptad_chooses))]
    fn choose(&self, labels: &[u32]) -> Option<u32>
        ensures { (result ≡ heptad.choice labels.now) × (ChoosesLeast heptad labels.now result) }
    {
        least_winner(labels)
    }
}

/// Whether `a` and `b` are labels, and `a` is 1, 2 or 4 ahead of `b` modulo 7.
fn ahead_by_square(a: u32, b: u32) -> bool
    ensures { result ≡ heptad.beats a b }
{
    a < SIZE.count && b < SIZE.count && matches!((a + SIZE.count - b) % SIZE.count, 1 | 2 | 4)
}

/// The least label that beats every one of `labels`, where they take one more.
#[tactic(auto, using(labels::proofs::Heptad::least_search))]
fn least_winner(labels: &[u32]) -> Option<u32>
    ensures { result ≡ heptad.choice labels.now }
{
    if !SIZE.takes_one_more(labels) {
        return None;
    }
    // Two loops and no `find` over `all`: by a rule of the project the inner one is left to the next by its loop label.
    'candidate: for x in 0..SIZE.count {
        for y in labels {
            if !ahead_by_square(x, *y) {
                continue 'candidate;
            }
        }
        return Some(x);
    }
    None
}
