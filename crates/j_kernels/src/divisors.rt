// Greatest common divisors.
ghost use Rattle.std.specs.Prelude.{◌≡◌};
ghost use Rattle.std.specs.Int.{IsGcd};
ghost use Rattle.j_kernels.specs.Scalars.{common_divisor};

/// The greatest number that divides both, or 0 for 0 and 0.
pub fn common_divisor(m: u64, n: u64) -> u64
    ensures value { result ≡ common_divisor m n }
    ensures divides { IsGcd m n result }
{
    let mut a = m;
    let mut b = n;
    while b != 0 {
        let rest = a % b;
        a = b;
        b = rest;
    }
    a
}
