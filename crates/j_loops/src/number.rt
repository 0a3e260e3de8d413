// How numbers are read.
ghost use Rattle.std.specs.Prelude.{◌≡◌, ℤ, pos};

/// A number as it is stored.
pub trait Number: Copy {
    ghost whole: { Self → ℤ };

    fn whole(self) -> i64
        ensures { result ≡ whole self };
}

impl Number for i64 {
    ghost whole = { λ z. z };

    fn whole(self) -> i64 {
        self
    }
}

/// A bit.
impl Number for u8 {
    ghost whole = { pos };

    fn whole(self) -> i64 {
        i64::from(self)
    }
}
