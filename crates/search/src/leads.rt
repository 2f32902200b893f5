ghost use Rattle.std.specs.Prelude.{◌≡◌, ℕ, Bool, true};

use labels::LabelSystem;

/// Which of two labels leads.
pub(crate) trait Leads {
    ghost relation: { Self → ℕ → ℕ → Bool };

    fn leads(&self, a: u32, b: u32) -> bool
        ensures { result ≡ relation self.now a b };

    ghost one_way: { (s : Self) (a b : ℕ) → relation s a b ≡ true → relation s b a ≡ true → ⊥ };
}

/// At the head the label that beats the other leads.
#[derive(Drop)]
pub(crate) struct NewerLeads<'a, S>(pub &'a S);

impl<'a, S: LabelSystem> Leads for NewerLeads<'a, S> {
    ghost relation = { λ s. (S.meaning s.0.now).beats };

    ghost one_way = { λ s a b. (S.shows s.0.now).one_way a b };

    fn leads(&self, a: u32, b: u32) -> bool {
        self.0.beats(a, b)
    }
}

/// At the tail the label that is beaten leads.
#[derive(Drop)]
pub(crate) struct OlderLeads<'a, S>(pub &'a S);

impl<'a, S: LabelSystem> Leads for OlderLeads<'a, S> {
    ghost relation = { λ s a b. (S.meaning s.0.now).beats b a };

    ghost one_way = { λ s a b. (S.shows s.0.now).one_way b a };

    fn leads(&self, a: u32, b: u32) -> bool {
        self.0.beats(b, a)
    }
}
