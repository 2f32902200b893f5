ghost use Rattle.std.specs.Prelude.{◌≡◌, ℕ, Option as Maybe};

/// A record that tells its label, or that it has none.
pub trait Entry {
    ghost labelled: { Self → Maybe ℕ };

    fn label(&self) -> Option<u32>
        ensures { result ≡ labelled self.now };
}
