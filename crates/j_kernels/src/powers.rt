// Powers of two numbers.
ghost use Rattle.std.specs.Prelude.{◌≡◌, ◌+◌, ◌%◌, ◌&&◌, pos, not, cond, nat_lt, int_lt};
ghost use Rattle.j_kernels.specs.Scalars.{is_unit, power};
ghost use Rattle.j_kernels.specs.Answers.{number_or_fault};

use j_definitions::Fault;

/// An exponent with the same powers that are in range. From 64 on only those of 0, 1 and -1 are, by whether it is even.
fn short_exponent(n: u64) -> u32
    ensures { result ≡ cond (nat_lt n 64) n (64 + n % 2) }
{
    if n < 64 {
        n as u32
    } else {
        64 + (n % 2) as u32
    }
}

/// Whether a power is no whole number: of a negative exponent, and neither of 1 nor of -1.
fn is_fraction(x: i64, y: i64) -> bool
    ensures { result ≡ (int_lt y (pos 0) && not (is_unit x)) }
{
    y < 0 && x != 1 && x != -1
}

/// x to the power y.
pub fn power(x: i64, y: i64) -> Result<i64, Fault>
    ensures { power x y ≡ number_or_fault result }
{
    if is_fraction(x, y) {
        return Err(Fault::Quotient);
    }
    x.checked_pow(short_exponent(y.unsigned_abs()))
        .ok_or(Fault::Overflow)
}
