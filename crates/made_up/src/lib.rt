//! A made-up label system for tests, whose choice depends on the order of the list.

#![tactic(auto)]

ghost use Rattle.std.specs.Prelude.{◌≡◌, ◌<◌};
ghost use Rattle.made_up.specs.Skipping.{past, skipping};
ghost use Rattle.made_up.specs.SkippingLaws.{skipping_laws};

use labels::{LabelSystem, Size};

const SIZE: Size = Size {
    order: 3,
    count: 100,
};

/// A counter that skips a label where the first listed label is odd.
#[derive(Clone, Copy)]
pub struct Skipping;

impl LabelSystem for Skipping {
    ghost meaning = { λ _. skipping };

    ghost shows = { λ s. skipping_laws };

    fn order(&self) -> u8 {
        SIZE.order
    }

    fn count(&self) -> u32 {
        SIZE.count
    }

    fn endless(&self) -> bool {
        false
    }

    fn beats(&self, a: u32, b: u32) -> bool {
        a < SIZE.count && b < SIZE.count && a > b
    }

    fn choose(&self, labels: &[u32]) -> Option<u32> {
        match labels {
            [] => Some(0),
            [a] if *a < SIZE.count => past(*a, *a),
            [a, b] if *a < SIZE.count && *b < SIZE.count => past(*a, *b),
            _ => None,
        }
    }
}

/// One past the larger of two labels, or two where the first is odd.
fn past(first: u32, second: u32) -> Option<u32>
    requires { (first < 100) × (second < 100) }
    ensures { result ≡ past first second }
{
    let next = first.max(second) + 1 + first % 2;
    (next < SIZE.count).then_some(next)
}
