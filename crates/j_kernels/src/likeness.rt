// What `=` and `~:` say of a match.
ghost use Rattle.std.specs.Prelude.{◌≡◌, Bool, not};

/// What a verb says of whether two atoms match.
pub trait Likeness {
    ghost said: { Bool → Bool };

    fn said(same: bool) -> bool
        ensures { result ≡ said same };
}

/// The dyad `=`.
pub struct Same;

impl Likeness for Same {
    ghost said = { λ b. b };

    fn said(same: bool) -> bool {
        same
    }
}

/// The dyad `~:`.
pub struct Different;

impl Likeness for Different {
    ghost said = { not };

    fn said(same: bool) -> bool {
        !same
    }
}
