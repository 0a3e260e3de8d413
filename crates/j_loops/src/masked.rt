// Wrapped results with a mask of their signs, so that a loop needs no branch for overflow.
ghost use Rattle.std.specs.Prelude.{◌≡◌, ◌<◌, ◌^◌, ◌+ℤ◌, ◌-ℤ◌, int_lt};

/// The sum, where the top bit of the mask is not set. It is set where the wrapped sum differs in sign from both numbers.
#[inline]
pub fn sum(x: i64, y: i64) -> (i64, u64)
    ensures { result.1 < 2 ^ 63 → result.0 ≡ x +ℤ y }
{
    let a = x.cast_unsigned();
    let b = y.cast_unsigned();
    let t = a.wrapping_add(b);
    (t.cast_signed(), (a ^ t) & (b ^ t))
}

/// The difference, where the top bit of the mask is not set. It is set where x differs in sign from y and from the wrapped difference.
#[inline]
pub fn difference(x: i64, y: i64) -> (i64, u64)
    ensures { result.1 < 2 ^ 63 → result.0 ≡ x -ℤ y }
{
    let a = x.cast_unsigned();
    let b = y.cast_unsigned();
    let t = a.wrapping_sub(b);
    (t.cast_signed(), (a ^ b) & (a ^ t))
}

/// Whether x is less than y: the sign of the wrapped difference, turned where it overflowed. A loop needs no comparison of 64 bits for it, which processors without wide ones take apart.
#[inline]
pub fn less(x: i64, y: i64) -> bool
    ensures { result ≡ int_lt x y }
{
    let a = x.cast_unsigned();
    let b = y.cast_unsigned();
    let t = a.wrapping_sub(b);
    (t ^ ((a ^ b) & (a ^ t))) >> 63 == 1
}
