ghost use Rattle.std.specs.Prelude.{◌≡◌, ◌≤◌, [], ◌∷◌, ◌++◌, length, take};

use std::marker::Model;

/// A list of at most twenty numbers, which needs no heap.
// An array and its length, since the library's array vector isn't `Copy` and a short list is.
#[derive(Clone, Copy)]
pub struct ShortList {
    items: [u32; 20],
    len: usize,
}

impl Model for ShortList {
    ghost use Rattle.std.specs.Prelude.{◌≡◌, ℕ, ◌-◌, ◌≤◌, List, ◌++◌, length, take, drop, replicate};
    ghost use Rattle.std.proofs.Common.{arith, ap, sym, ◌∙◌, take-append-drop, length-take-le};

    ghost Value = { List ℕ };

    ghost view = { λ s. take s.len s.items };

    // The unused places hold zeros, so that the list alone tells the fields.
    ghost invariant = { λ s. (s.len ≤ 20) × (length s.items ≡ 20) × (drop s.len s.items ≡ replicate (20 - s.len) 0) };

    ghost inverse = { λ l. record { items = l ++ replicate (20 - length l) 0; len = length l } };

    ghost inverse_ok = { λ s h i. record {
      items = (ap (λ k. take s.len s.items ++ replicate (20 - k) 0) (length-take-le s.len s.items (omega (arith, h.0, h.1)))
          ∙ ap (λ rest. take s.len s.items ++ rest) (sym h.2) ∙ take-append-drop s.len s.items) i;
      len = length-take-le s.len s.items (omega (arith, h.0, h.1)) i;
    } };
}

impl ShortList {
    pub fn new() -> ShortList
        ensures { result ≡ [] }
    {
        ShortList {
            items: [0; 20],
            len: 0,
        }
    }

    /// One number more at the end; a list of twenty stays as it is.
    pub fn push(&mut self, number: u32)
        ensures { self.new ≡ take 20 (self.old ++ number ∷ []) }
    {
        if self.len < 20 {
            self.items[self.len] = number;
            self.len += 1;
        }
    }

    /// The numbers, which are at most twenty.
    pub fn as_slice(&self) -> &[u32]
        ensures list { result.now ≡ self.now }
        ensures few { length result.now ≤ 20 }
    {
        &self.items[..self.len]
    }
}
