#![tactic(auto)]

ghost use Rattle.std.specs.Prelude.{◌≡◌};
ghost use Rattle.labels.specs.System.{System, Laws};

mod short_list;
mod size;

pub use short_list::ShortList;
pub use size::Size;

/// A label system: what it means, the laws that its meaning shows, and five calls that answer by it.
/// No call refuses, and none changes the system.
pub trait LabelSystem {
    ghost meaning: { Self → System };

    /// How many parties may hold labels together.
    fn order(&self) -> u8
        ensures { result ≡ (meaning self.now).order };

    /// How many labels there are: they are the numbers below this one.
    fn count(&self) -> u32
        ensures { result ≡ (meaning self.now).count };

    /// Whether a label is left for every newcomer while fewer than `order` are held.
    fn endless(&self) -> bool
        ensures { result ≡ (meaning self.now).endless };

    /// Whether `a` is the newer label where `a` and `b` are held together.
    fn beats(&self, a: u32, b: u32) -> bool
        ensures { result ≡ (meaning self.now).beats a b };

    /// The label for a newcomer beside those who hold `labels`.
    fn choose(&self, labels: &[u32]) -> Option<u32>
        ensures { result ≡ (meaning self.now).choice labels.now };

    ghost shows: { (s : Self) → Laws (meaning s) };
}
