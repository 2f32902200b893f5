ghost use Rattle.std.specs.Prelude.{◌≡◌, ℕ, Bool, ⊤};
ghost use Rattle.labels.specs.System.{System, Laws};
ghost use Rattle.piles.specs.Answers.{AnswersAs, KnownBy};

use labels::LabelSystem;
use std::alloc::AllocError;

/// A system that ships as a pile: what the pile means, and the numbers that it is known by.
pub trait Shipped: LabelSystem + Copy {
    ghost pile: { System };

    ghost order: { ℕ };

    ghost count: { ℕ };

    ghost endless: { Bool };

    /// The one system of its type that ships.
    fn shipped() -> Self
        ensures { AnswersAs (Self.meaning result) pile };

    ghost shows: { Laws pile };

    ghost known: { KnownBy pile order count endless };
}

/// A pile: a label system that ships ready.
pub struct Pile<S: Shipped> {
    system: S,
    ghost as_shipped: { AnswersAs (S.meaning system) S.pile },
}

impl<S: Shipped> Pile<S> {
    pub fn new() -> Self {
        Pile {
            system: S::shipped(),
        }
    }
}

impl<S: Shipped> LabelSystem for Pile<S> {
    ghost meaning = { λ _. S.pile };

    ghost shows = { λ _. S.Shipped.shows };

    fn order(&self) -> u8
        ensures { (result ≡ S.pile.order) × (result ≡ S.Shipped.order) }
    {
        self.system.order()
    }

    fn count(&self) -> u32
        ensures { (result ≡ S.pile.count) × (result ≡ S.Shipped.count) }
    {
        self.system.count()
    }

    fn endless(&self) -> bool
        ensures { (result ≡ S.pile.endless) × (result ≡ S.Shipped.endless) }
    {
        self.system.endless()
    }

    fn beats(&self, a: u32, b: u32) -> bool {
        self.system.beats(a, b)
    }

    fn choose(&self, labels: &[u32]) -> Option<u32> {
        self.system.choose(labels)
    }
}

// By hand: a derive is refused beside a ghost field that speaks of a bound, and so is `*self`, which holds an `S`.
impl<S: Shipped> Clone for Pile<S> {
    ghost is_clone = { λ pile copy. copy ≡ pile };

    ghost is_infallible = { λ _. ⊤ };

    fn clone(&self) -> Result<Self, AllocError> {
        Ok(Pile {
            system: self.system,
        })
    }
}

impl<S: Shipped> Copy for Pile<S> {}
