ghost use Rattle.std.specs.Prelude.{◌≡◌};
ghost use Rattle.labels.specs.Plain.{all_below, takes_one_more};

/// How many parties a label system serves, and how many labels it has.
#[derive(Clone, Copy, PartialEq, Eq, Debug)]
pub struct Size {
    pub order: u8,
    pub count: u32,
}

impl Size {
    /// The largest order that a label system may have.
    pub const MAX_ORDER: u8 = 20;

    /// The largest count: labels fit 28 bits.
    pub const MAX_COUNT: u32 = 0x1000_0000;

    /// Whether a newcomer may be given a label beside `labels`: there are fewer than `order`, and each is below `count`.
    pub fn takes_one_more(&self, labels: &[u32]) -> bool
        ensures { result ≡ takes_one_more self.now.order self.now.count labels.now }
    {
        labels.len() < usize::from(self.order) && self.all_below(labels)
    }

    /// Whether each of `labels` is below `count`.
    fn all_below(&self, labels: &[u32]) -> bool
        ensures { result ≡ all_below self.now.count labels.now }
    {
        labels.iter().all(|label| *label < self.count)
    }
}
