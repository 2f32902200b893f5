//! What one label system over another means, that it shows the laws, and choices worked out by hand.

#![tactic(auto)]

ghost use Rattle.std.specs.Prelude.{◌≡◌};
ghost use Rattle.over.specs.Worked.{Worked};

/// The choices worked out by hand hold. The function is there for its contract, and answers 0.
pub fn worked_choices_hold() -> u8
    ensures { (Worked) × (result ≡ 0) }
{
    0
}
