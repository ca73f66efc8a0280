ghost use Rattle.std.specs.Prelude.{◌≡◌};
ghost use Rattle.interference.specs.Handlers.{number};

// Why this crate refuses.
#[derive(Clone, Copy, PartialEq, Eq, Debug)]
pub enum Refusal {
    // the limits on a handler's cost and gap do not hold
    Limits = 3,
}

// the number that users know the refusal by
impl From<Refusal> for u8 {
    ghost from_gives = { λ r n. n ≡ number r };

    fn from(refusal: Refusal) -> u8 {
        refusal as u8
    }
}
