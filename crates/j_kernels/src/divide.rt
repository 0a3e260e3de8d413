// Quotients of two numbers.
ghost use Rattle.std.specs.Prelude.{◌≡◌};
ghost use Rattle.j_kernels.specs.Scalars.{quotient};
ghost use Rattle.j_kernels.specs.Answers.{number_or_fault};

use j_definitions::Fault;

/// The quotient, where it is whole.
#[inline]
pub fn quotient(x: i64, y: i64) -> Result<i64, Fault>
    ensures { quotient x y ≡ number_or_fault result }
{
    if y == 0 {
        return if x == 0 { Ok(0) } else { Err(Fault::Quotient) };
    }
    if y == -1 {
        return x.checked_neg().ok_or(Fault::Overflow);
    }
    if x % y == 0 {
        Ok(x / y)
    } else {
        Err(Fault::Quotient)
    }
}
