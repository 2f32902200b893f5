ghost use Rattle.std.specs.Prelude.{◌^◌, true, false};
ghost use Rattle.over.specs.Piles.{pile_1, pile_2, pile_3, pile_4};
ghost use Rattle.over.proofs.Piles.{pile_1_laws, pile_2_laws, pile_3_laws, pile_4_laws};
ghost use Rattle.std.proofs.Common.{rules};

use super::pile::{Pile, Shipped};
use composition::Over;
use labels::Size;
use plain::{Counter, Heptad, Triangle};

type TwoTriangles = Over<Triangle, Triangle>;

type FourTriangles = Over<Triangle, Over<Triangle, TwoTriangles>>;

type TwoHeptads = Over<Heptad, Heptad>;

type FourHeptads = Over<Pile2, Pile2>;

/// Pile 1, for five parties: triangle over (triangle over (triangle over triangle)).
pub type Pile1 = Pile<FourTriangles>;

/// Pile 2, for five parties: heptad over heptad.
pub type Pile2 = Pile<TwoHeptads>;

/// Pile 3, for twenty parties: the counter of order 20 and ceiling 2^28.
pub type Pile3 = Pile<Counter>;

/// Pile 4, for twenty parties: triangle over (heptad over (Q over Q)), where Q is pile 2 over pile 2.
pub type Pile4 = Pile<Over<Triangle, Over<Heptad, Over<FourHeptads, FourHeptads>>>>;

impl Shipped for FourTriangles {
    ghost pile = { pile_1 };

    ghost order = { 5 };

    ghost count = { 81 };

    ghost endless = { true };

    ghost shows = { pile_1_laws };

    ghost known = { Prim.search rules };

    fn shipped() -> Self {
        let two = Over {
            outer: Triangle,
            inner: Triangle,
        };
        let three = Over {
            outer: Triangle,
            inner: two,
        };
        Over {
            outer: Triangle,
            inner: three,
        }
    }
}

impl Shipped for TwoHeptads {
    ghost pile = { pile_2 };

    ghost order = { 5 };

    ghost count = { 49 };

    ghost endless = { true };

    ghost shows = { pile_2_laws };

    ghost known = { Prim.search rules };

    fn shipped() -> Self {
        Over {
            outer: Heptad,
            inner: Heptad,
        }
    }
}

impl Shipped for Counter {
    ghost pile = { pile_3 };

    ghost order = { 20 };

    ghost count = { 2 ^ 28 };

    ghost endless = { false };

    ghost shows = { pile_3_laws };

    ghost known = { Prim.search rules };

    fn shipped() -> Self {
        Counter::new(20, Size::MAX_COUNT).unwrap()
    }
}

impl Shipped for Over<Triangle, Over<Heptad, Over<FourHeptads, FourHeptads>>> {
    ghost pile = { pile_4 };

    ghost order = { 20 };

    ghost count = { 121060821 };

    ghost endless = { true };

    ghost shows = { pile_4_laws };

    ghost known = { Prim.search rules };

    fn shipped() -> Self {
        let q = Over {
            outer: Pile2::new(),
            inner: Pile2::new(),
        };
        let hundreds = Over { outer: q, inner: q };
        let inner = Over {
            outer: Heptad,
            inner: hundreds,
        };
        Over {
            outer: Triangle,
            inner,
        }
    }
}
