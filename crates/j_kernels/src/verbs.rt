// The scalar verbs on two numbers.
ghost use Rattle.std.specs.Prelude.{◌≡◌, ◌<◌, ◌^◌, ℤ, ◌&&◌, ◌||◌, not, Result, Err};
ghost use Rattle.j_definitions.specs.Array.{Atom};
ghost use Rattle.j_definitions.specs.declared.Fault.{Fault as FaultValue};
ghost use Rattle.j_definitions.specs.declared.Fault.TheVariants.{Nonce};
ghost use Rattle.j_kernels.specs.Scalars.{monad_on, dyad_on};
ghost use Rattle.j_kernels.specs.Answers.{AreTruths};
ghost use Rattle.j_kernels.specs.declared.scalar.Scalar.TheVariants.{Plus as PlusVerb, Minus as MinusVerb, Times as TimesVerb, Divide as DivideVerb, Power as PowerVerb, Residue as ResidueVerb, LesserOf as LesserVerb, GreaterOf as GreaterVerb, LessEqual as LessEqualVerb, GreaterEqual as GreaterEqualVerb, Double as DoubleVerb, Square as SquareVerb, Or as OrVerb, And as AndVerb, Not as NotVerb, Halve as HalveVerb, Less as LessVerb, Greater as GreaterThanVerb};

use crate::divide;
use crate::divisors::common_divisor;
use crate::forms::{NumberVerb, PartialVerb, TotalVerb};
use crate::multiples::common_multiple;
use crate::powers::power;
use crate::residues::residue;
use j_definitions::Fault;
use j_loops::masked;
use std::cmp;

/// The dyad `+`.
pub struct Sum;

impl NumberVerb<i64> for Sum {
    ghost of = { dyad_on PlusVerb };

    const STOPS: bool = false;

    fn quick(x: i64, y: i64) -> (i64, u64) {
        masked::sum(x, y)
    }

    fn exact(x: i64, y: i64) -> Result<i64, Fault> {
        x.checked_add(y).ok_or(Fault::Overflow)
    }
}

/// The dyad `-`.
pub struct Difference;

impl NumberVerb<i64> for Difference {
    ghost of = { dyad_on MinusVerb };

    const STOPS: bool = false;

    fn quick(x: i64, y: i64) -> (i64, u64) {
        masked::difference(x, y)
    }

    fn exact(x: i64, y: i64) -> Result<i64, Fault> {
        x.checked_sub(y).ok_or(Fault::Overflow)
    }
}

/// The dyad `*`.
pub struct Product;

impl NumberVerb<i64> for Product {
    ghost of = { dyad_on TimesVerb };

    const STOPS: bool = true;

    fn quick(x: i64, y: i64) -> (i64, u64) {
        let (t, over) = x.overflowing_mul(y);
        (t, u64::from(over) << 63)
    }

    fn exact(x: i64, y: i64) -> Result<i64, Fault> {
        x.checked_mul(y).ok_or(Fault::Overflow)
    }
}

/// The monad `-`.
pub struct Negative;

impl NumberVerb<i64> for Negative {
    ghost of = { λ _ y. monad_on MinusVerb y };

    const STOPS: bool = false;

    fn quick(_x: i64, y: i64) -> (i64, u64) {
        masked::difference(0, y)
    }

    fn exact(_x: i64, y: i64) -> Result<i64, Fault> {
        y.checked_neg().ok_or(Fault::Overflow)
    }
}

/// The monad `<:`.
pub struct Decrement;

impl NumberVerb<i64> for Decrement {
    ghost of = { λ _ y. monad_on LessEqualVerb y };

    const STOPS: bool = false;

    fn quick(_x: i64, y: i64) -> (i64, u64) {
        masked::difference(y, 1)
    }

    fn exact(_x: i64, y: i64) -> Result<i64, Fault> {
        y.checked_sub(1).ok_or(Fault::Overflow)
    }
}

/// The monad `>:`.
pub struct Increment;

impl NumberVerb<i64> for Increment {
    ghost of = { λ _ y. monad_on GreaterEqualVerb y };

    const STOPS: bool = false;

    fn quick(_x: i64, y: i64) -> (i64, u64) {
        masked::sum(y, 1)
    }

    fn exact(_x: i64, y: i64) -> Result<i64, Fault> {
        y.checked_add(1).ok_or(Fault::Overflow)
    }
}

/// The monad `+:`.
pub struct Twice;

impl NumberVerb<i64> for Twice {
    ghost of = { λ _ y. monad_on DoubleVerb y };

    const STOPS: bool = false;

    fn quick(_x: i64, y: i64) -> (i64, u64) {
        masked::sum(y, y)
    }

    fn exact(_x: i64, y: i64) -> Result<i64, Fault> {
        y.checked_add(y).ok_or(Fault::Overflow)
    }
}

/// The monad `-.`.
pub struct Complement;

impl NumberVerb<i64> for Complement {
    ghost of = { λ _ y. monad_on NotVerb y };

    const STOPS: bool = false;

    fn quick(_x: i64, y: i64) -> (i64, u64) {
        masked::difference(1, y)
    }

    fn exact(_x: i64, y: i64) -> Result<i64, Fault> {
        1i64.checked_sub(y).ok_or(Fault::Overflow)
    }
}

/// The dyad `<.`.
pub struct Lesser;

impl TotalVerb<i64> for Lesser {
    ghost of = { dyad_on LesserVerb };

    fn value(x: i64, y: i64) -> i64 {
        cmp::min(x, y)
    }
}

/// The dyad `>.`.
pub struct Greater;

impl TotalVerb<i64> for Greater {
    ghost of = { dyad_on GreaterVerb };

    fn value(x: i64, y: i64) -> i64 {
        cmp::max(x, y)
    }
}

/// The dyad `|`.
pub struct Rest;

impl TotalVerb<i64> for Rest {
    ghost of = { dyad_on ResidueVerb };

    fn value(x: i64, y: i64) -> i64 {
        residue(x, y)
    }
}

/// The dyad `<`.
pub struct Below;

impl TotalVerb<u8> for Below {
    ghost of = { dyad_on LessVerb };

    fn value(x: i64, y: i64) -> u8 {
        u8::from(masked::less(x, y))
    }
}

/// The dyad `>`.
pub struct Above;

impl TotalVerb<u8> for Above {
    ghost of = { dyad_on GreaterThanVerb };

    fn value(x: i64, y: i64) -> u8 {
        u8::from(masked::less(y, x))
    }
}

/// The dyad `<:`.
pub struct AtMost;

impl TotalVerb<u8> for AtMost {
    ghost of = { dyad_on LessEqualVerb };

    fn value(x: i64, y: i64) -> u8 {
        u8::from(!masked::less(y, x))
    }
}

/// The dyad `>:`.
pub struct AtLeast;

impl TotalVerb<u8> for AtLeast {
    ghost of = { dyad_on GreaterEqualVerb };

    fn value(x: i64, y: i64) -> u8 {
        u8::from(!masked::less(x, y))
    }
}

/// The monad `*`.
pub struct Sign;

impl TotalVerb<i64> for Sign {
    ghost of = { λ _ y. monad_on TimesVerb y };

    fn value(_x: i64, y: i64) -> i64 {
        y.signum()
    }
}

/// The monads `+`, `<.` and `>.`.
pub struct Itself;

impl TotalVerb<i64> for Itself {
    ghost of = { λ _ y. monad_on PlusVerb y };

    fn value(_x: i64, y: i64) -> i64 {
        y
    }
}

/// The dyad `%`.
pub struct Quotient;

impl PartialVerb<i64> for Quotient {
    ghost of = { dyad_on DivideVerb };

    fn value(x: i64, y: i64) -> Result<i64, Fault> {
        divide::quotient(x, y)
    }
}

/// The dyad `^`.
pub struct Power;

impl PartialVerb<i64> for Power {
    ghost of = { dyad_on PowerVerb };

    fn value(x: i64, y: i64) -> Result<i64, Fault> {
        power(x, y)
    }
}

/// The monad `%`.
pub struct Reciprocal;

impl PartialVerb<i64> for Reciprocal {
    ghost of = { λ _ y. monad_on DivideVerb y };

    fn value(_x: i64, y: i64) -> Result<i64, Fault> {
        if y == 1 || y == -1 {
            Ok(y)
        } else {
            Err(Fault::Quotient)
        }
    }
}

/// The monad `|`.
pub struct Magnitude;

impl PartialVerb<i64> for Magnitude {
    ghost of = { λ _ y. monad_on ResidueVerb y };

    fn value(_x: i64, y: i64) -> Result<i64, Fault> {
        y.checked_abs().ok_or(Fault::Overflow)
    }
}

/// The monad `*:`.
pub struct SquareOf;

impl PartialVerb<i64> for SquareOf {
    ghost of = { λ _ y. monad_on SquareVerb y };

    fn value(_x: i64, y: i64) -> Result<i64, Fault> {
        y.checked_mul(y).ok_or(Fault::Overflow)
    }
}

/// The monad `-:`.
pub struct HalfOf;

impl PartialVerb<i64> for HalfOf {
    ghost of = { λ _ y. monad_on HalveVerb y };

    fn value(_x: i64, y: i64) -> Result<i64, Fault> {
        if y % 2 == 0 {
            Ok(y / 2)
        } else {
            Err(Fault::Quotient)
        }
    }
}

/// The dyad `+:`.
pub struct NotOr;

impl PartialVerb<u8> for NotOr {
    ghost of = { dyad_on DoubleVerb };

    fn value(x: i64, y: i64) -> Result<u8, Fault> {
        match truths(x, y) {
            Ok((a, b)) => Ok(u8::from(neither(a, b))),
            Err(e) => Err(e),
        }
    }
}

/// The dyad `*:`.
pub struct NotAnd;

impl PartialVerb<u8> for NotAnd {
    ghost of = { dyad_on SquareVerb };

    fn value(x: i64, y: i64) -> Result<u8, Fault> {
        match truths(x, y) {
            Ok((a, b)) => Ok(u8::from(not_both(a, b))),
            Err(e) => Err(e),
        }
    }
}

/// The dyad `+.`.
pub struct Divisor;

impl PartialVerb<i64> for Divisor {
    ghost of = { dyad_on OrVerb };

    fn value(x: i64, y: i64) -> Result<i64, Fault> {
        let divisor = common_divisor(x.unsigned_abs(), y.unsigned_abs());
        if divisor < 1 << 63 {
            Ok(divisor as i64)
        } else {
            Err(Fault::Overflow)
        }
    }
}

/// The dyad `*.`.
pub struct Multiple;

impl PartialVerb<i64> for Multiple {
    ghost of = { dyad_on AndVerb };

    fn value(x: i64, y: i64) -> Result<i64, Fault> {
        common_multiple(x, y)
    }
}

/// A valence that a verb doesn't have as a scalar verb.
pub struct Absent;

impl PartialVerb<i64> for Absent {
    ghost of = { λ x y. Err Nonce };

    fn value(_x: i64, _y: i64) -> Result<i64, Fault> {
        Err(Fault::Nonce)
    }
}

// The truth values that two numbers are.
fn truths(x: i64, y: i64) -> Result<(bool, bool), Fault>
    ensures { AreTruths x y result }
{
    if (x == 0 || x == 1) && (y == 0 || y == 1) {
        Ok((x == 1, y == 1))
    } else {
        Err(Fault::Domain)
    }
}

fn neither(a: bool, b: bool) -> bool
    ensures { result ≡ not (a || b) }
{
    !(a || b)
}

fn not_both(a: bool, b: bool) -> bool
    ensures { result ≡ not (a && b) }
{
    !(a && b)
}
