// Least common multiples.
ghost use Rattle.std.specs.Prelude.{◌≡◌};
ghost use Rattle.j_kernels.specs.Scalars.{whole, common_multiple};
ghost use Rattle.j_kernels.specs.Answers.{number_or_fault};

use crate::divisors::common_divisor;
use j_definitions::Fault;

/// The product divided by the greatest common divisor, with the sign of the product. A divisor of 2^63 has -2^63 on both sides.
pub fn common_multiple(x: i64, y: i64) -> Result<i64, Fault>
    ensures { whole (common_multiple x y) ≡ number_or_fault result }
{
    if x == 0 || y == 0 {
        return Ok(0);
    }
    let divisor = common_divisor(x.unsigned_abs(), y.unsigned_abs());
    if divisor >= 1 << 63 {
        return Err(Fault::Overflow);
    }
    let part = x / divisor as i64;
    part.checked_mul(y).ok_or(Fault::Overflow)
}
