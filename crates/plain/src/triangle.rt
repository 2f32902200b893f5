ghost use Rattle.std.specs.Prelude.{◌≡◌};
ghost use Rattle.labels.specs.Plain.{triangle};
ghost use Rattle.labels.specs.Least.{ChoosesLeast};
ghost use Rattle.labels.proofs.Triangle.{triangle_laws};

use labels::{LabelSystem, Size};

const SIZE: Size = Size { order: 2, count: 3 };

/// Three labels in a ring, each beating the one before it.
#[derive(Clone, Copy)]
pub struct Triangle;

impl LabelSystem for Triangle {
    ghost meaning = { λ _. triangle };

    ghost shows = { λ s. triangle_laws };

    fn order(&self) -> u8 {
        SIZE.order
    }

    fn count(&self) -> u32 {
        SIZE.count
    }

    fn endless(&self) -> bool {
        true
    }

    fn beats(&self, a: u32, b: u32) -> bool {
        a < SIZE.count && b < SIZE.count && a == (b + 1) % SIZE.count
    }

    #[tactic(auto, using(labels::proofs::Triangle::triangle_chooses))]
    fn choose(&self, labels: &[u32]) -> Option<u32>
        ensures { (result ≡ triangle.choice labels.now) × (ChoosesLeast triangle labels.now result) }
    {
        next_in_ring(labels)
    }
}

/// The choice beside `labels`.
fn next_in_ring(labels: &[u32]) -> Option<u32>
    ensures { result ≡ triangle.choice labels.now }
{
    match labels {
        [] => Some(0),
        [b] if *b < SIZE.count => Some((*b + 1) % SIZE.count),
        _ => None,
    }
}
