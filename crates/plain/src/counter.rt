ghost use Rattle.std.specs.Prelude.{◌≡◌, ◌+◌, ◌^◌, ◌<◌, ◌≤◌, length, IfSome, if◌then◌else◌, Some, None, MatchOption, MatchResult, nat_lt};
ghost use Rattle.labels.specs.Plain.{counter};
ghost use Rattle.labels.specs.Least.{ChoosesLeast, JustAbove, IsLargest};
ghost use Rattle.labels.proofs.Counter.{counter_laws};
ghost use Rattle.plain.specs.Refusals.{counter_refusal};

use super::refusal::CounterRefusal;
use labels::{LabelSystem, Size};

/// Labels that rise up to a ceiling, and are then spent.
#[derive(Clone, Copy)]
pub struct Counter {
    order: u8,
    ceiling: u32,
    ghost within: { (1 ≤ order) × (order ≤ 20) × (1 ≤ ceiling) × (ceiling ≤ 2 ^ 28) },
}

impl Counter {
    /// A counter for `order` parties with the labels below `ceiling`.
    pub fn new(order: u8, ceiling: u32) -> Result<Counter, CounterRefusal>
        ensures { MatchResult result (λ made. (counter_refusal order ceiling ≡ None) × (made.order ≡ order) × (made.ceiling ≡ ceiling)) (λ e. counter_refusal order ceiling ≡ Some e) }
    {
        if !(1..=Size::MAX_ORDER).contains(&order) {
            return Err(CounterRefusal::Order);
        }
        if !(1..=Size::MAX_COUNT).contains(&ceiling) {
            return Err(CounterRefusal::Ceiling);
        }
        Ok(Counter { order, ceiling })
    }
}

impl LabelSystem for Counter {
    ghost meaning = { λ c. counter c.order c.ceiling };

    ghost shows = { λ s. counter_laws s.order s.ceiling s.within.1 s.within.2 s.within.3 };

    fn order(&self) -> u8 {
        self.order
    }

    fn count(&self) -> u32 {
        self.ceiling
    }

    fn endless(&self) -> bool {
        false
    }

    fn beats(&self, a: u32, b: u32) -> bool {
        a < self.ceiling && b < self.ceiling && a > b
    }

    #[tactic(auto, using(labels::proofs::Counter::counter_chosen))]
    fn choose(&self, labels: &[u32]) -> Option<u32>
        ensures { (result ≡ (counter self.now.order self.now.ceiling).choice labels.now) × (ChoosesLeast (counter self.now.order self.now.ceiling) labels.now result × IfSome result (JustAbove labels.now)) }
    {
        self.past_largest(labels)
    }
}

impl Counter {
    /// One past the largest label, where `labels` take one more.
    #[tactic(auto, using(labels::proofs::Counter::largest_below, labels::proofs::Counter::past_largest))]
    fn past_largest(&self, labels: &[u32]) -> Option<u32>
        ensures { result ≡ (counter self.now.order self.now.ceiling).choice labels.now }
    {
        let size = Size {
            order: self.order,
            count: self.ceiling,
        };
        if !size.takes_one_more(labels) {
            return None;
        }
        match largest(labels) {
            Some(label) => next_below(label, self.ceiling),
            None => Some(0),
        }
    }
}

/// The largest label, unless there is none.
fn largest(labels: &[u32]) -> Option<u32>
    ensures { MatchOption result (length labels.now ≡ 0) (IsLargest labels.now) }
{
    labels.iter().copied().max()
}

/// One past `label`, if that is below the ceiling.
fn next_below(label: u32, ceiling: u32) -> Option<u32>
    requires { label < ceiling }
    ensures { result ≡ (if nat_lt (label + 1) ceiling then Some (label + 1) else None) }
{
    let next = label + 1;
    (next < ceiling).then_some(next)
}
