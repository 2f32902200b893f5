ghost use Rattle.std.specs.Prelude.{◌≡◌};
ghost use Rattle.over.specs.Over.{over, over_order, over_count};
ghost use Rattle.over.specs.Steps.{ChoosesByStep};
ghost use Rattle.over.proofs.OverLaws.{over_laws};

use super::steps::{can_grow, inner_parts, joined, leader, outer_parts};
use labels::{LabelSystem, Size};

/// One label system over another. A label is its outer part times the inner count, plus its inner part.
#[derive(Clone, Copy)]
pub struct Over<O, I> {
    pub outer: O,
    pub inner: I,
}

impl<O: LabelSystem, I: LabelSystem> LabelSystem for Over<O, I> {
    ghost meaning = { λ s. over (O.meaning s.outer) (I.meaning s.inner) };

    ghost shows = { λ s. over_laws (O.meaning s.outer) (I.meaning s.inner) (O.shows s.outer) (I.shows s.inner) };

    fn order(&self) -> u8 {
        self.size().order
    }

    fn count(&self) -> u32 {
        self.size().count
    }

    fn endless(&self) -> bool {
        self.outer.endless() && self.inner.endless()
    }

    fn beats(&self, a: u32, b: u32) -> bool {
        let count = self.size().count;
        if a >= count || b >= count {
            return false;
        }
        let width = self.inner.count();
        let above = a / width;
        let below = b / width;
        self.outer.beats(above, below) || (above == below && self.inner.beats(a % width, b % width))
    }

    fn choose(&self, labels: &[u32]) -> Option<u32>
        ensures { (result ≡ (over (O.meaning self.now.outer) (I.meaning self.now.inner)).choice labels.now) × (ChoosesByStep (O.meaning self.now.outer) (I.meaning self.now.inner) labels.now result) }
    {
        self.by_parts(labels)
    }
}

impl<O: LabelSystem, I: LabelSystem> Over<O, I> {
    /// The order and the count, both 0 where the two systems do not fit together.
    fn size(&self) -> Size
        ensures order { result.order ≡ over_order (O.meaning self.now.outer) (I.meaning self.now.inner) }
        ensures count { result.count ≡ over_count (O.meaning self.now.outer) (I.meaning self.now.inner) }
    {
        let g = self.outer.order();
        let h = self.inner.order();
        let count = u64::from(self.outer.count()) * u64::from(self.inner.count());
        if g > 0 && h > 0 && g + h - 1 <= Size::MAX_ORDER && count <= u64::from(Size::MAX_COUNT) {
            Size {
                order: g + h - 1,
                count: count as u32,
            }
        } else {
            // No `Option`: by the rules such a composition has order 0 and count 0.
            Size { order: 0, count: 0 }
        }
    }

    /// The choice beside `labels`: the group under the leading outer part grows until it is full, then a new one begins.
    fn by_parts(&self, labels: &[u32]) -> Option<u32>
        ensures { result ≡ (over (O.meaning self.now.outer) (I.meaning self.now.inner)).choice labels.now }
    {
        if !self.size().takes_one_more(labels) {
            return None;
        }
        let width = self.inner.count();
        if labels.is_empty() {
            return joined(width, self.outer.choose(&[]), self.inner.choose(&[]));
        }
        let parts = outer_parts(labels, width);
        // By `let .. else`, by a rule of the project for the steps of a choice.
        let Some(m) = leader(&self.outer, parts.as_slice()) else {
            return None;
        };
        let group = inner_parts(labels, width, m);
        if can_grow(group.as_slice(), self.inner.order()) {
            joined(width, Some(m), self.inner.choose(group.as_slice()))
        } else {
            joined(
                width,
                self.outer.choose(parts.as_slice()),
                self.inner.choose(&[]),
            )
        }
    }
}
