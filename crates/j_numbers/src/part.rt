// What one part of a number word gives.
ghost use Rattle.std.specs.Prelude.{◌≡◌, ◌+◌, ◌*◌, ◌^◌, ◌≤◌, true, length, SomeIff, Some as SomeValue, IsTrue, IsFalse};
ghost use Rattle.std.specs.List.{position_or_len};
ghost use Rattle.std.specs.Char.{digit_value, is_ascii_digit};
ghost use Rattle.std.specs.Str.Parse.{digits_value};
ghost use Rattle.j_numbers.specs.Numbers.{are_digits, is_base_digit, are_base_digits, is_minus, unsigned, signed, scaled, based, is_mark, ranged, is_infinity, part_value};
ghost use Rattle.j_numbers.specs.Capped.{capped};

use crate::fault::NumberFault;
use j_noun::RankPart;

// The largest size, which only a negative number has.
const MOST_NEGATIVE: u64 = 9_223_372_036_854_775_808;

// A size that no number has. It stands for each larger one.
const TOO_LARGE: u64 = 9_223_372_036_854_775_809;

// The largest size that may have a digit more.
const MOST_BEFORE_DIGIT: u64 = 922_337_203_685_477_580;

// The first power of ten that is too large.
const LARGE_EXPONENT: u64 = 19;

fn is_mark(b: u8) -> bool
    ensures { result ≡ is_mark b }
{
    b == b'e' || b == b'b'
}

/// The place of the first mark, or the end.
#[tactic(auto, using(crate::proofs::Places::found_first, crate::proofs::Places::found_none))]
fn first_mark(part: &[u8]) -> usize
    ensures place { result ≡ position_or_len is_mark part.now }
    ensures within { result ≤ length part.now }
{
    for (place, b) in part.iter().enumerate() {
        if is_mark(*b) {
            return place;
        }
    }
    part.len()
}

/// Whether `_` stands before the digits, and the digits.
fn split_sign(numeral: &[u8]) -> (bool, &[u8])
    ensures minus { result.0 ≡ is_minus numeral.now }
    ensures digits { result.1.now ≡ unsigned numeral.now }
{
    match numeral {
        [b'_', digits @ ..] => (true, digits),
        _ => (false, numeral),
    }
}

fn cap(size: u64) -> u64
    ensures { result ≡ capped size }
{
    if size > TOO_LARGE { TOO_LARGE } else { size }
}

/// The value of digits and one more, as far as it matters.
fn with_digit(size: u64, digit: u8) -> u64
    requires { IsTrue (is_ascii_digit digit) }
    ensures { result ≡ capped (size * 10 + digit_value digit) }
{
    if size > MOST_BEFORE_DIGIT {
        TOO_LARGE
    } else {
        size * 10 + u64::from(digit - b'0')
    }
}

/// The value of digits, as far as it matters.
#[tactic(auto, using(crate::proofs::Sizes::base_more, crate::proofs::Sizes::digits_more))]
fn read_digits(digits: &[u8]) -> Option<u64>
    ensures { SomeIff result (IsTrue (are_digits digits.now)) (capped (digits_value 10 digits.now)) }
{
    if digits.is_empty() {
        return None;
    }
    let mut size: u64 = 0;
    for digit in digits {
        if !digit.is_ascii_digit() {
            return None;
        }
        size = with_digit(size, *digit);
    }
    Some(size)
}

fn base_digit(b: u8) -> Option<u64>
    ensures { SomeIff result (IsTrue (is_base_digit b)) (digit_value b) }
{
    match b {
        b'0'..=b'9' => Some(u64::from(b - b'0')),
        b'a'..=b'z' => Some(u64::from(b - b'a') + 10),
        _ => None,
    }
}

fn with_base_digit(size: u64, base: u64, digit: u64) -> u64
    ensures { result ≡ capped (size * base + digit) }
{
    cap(size.saturating_mul(base).saturating_add(digit))
}

/// The value of digits and letters in a base, as far as it matters.
#[tactic(auto, using(crate::proofs::Sizes::base_more, crate::proofs::Sizes::base_digits_more))]
fn read_base_digits(base: u64, digits: &[u8]) -> Option<u64>
    ensures { SomeIff result (IsTrue (are_base_digits digits.now)) (capped (digits_value base digits.now)) }
{
    if digits.is_empty() {
        return None;
    }
    let mut size: u64 = 0;
    for b in digits {
        let digit = base_digit(*b)?;
        size = with_base_digit(size, base, digit);
    }
    Some(size)
}

/// A size times a power of ten, as far as it matters.
#[tactic(auto, using(crate::proofs::Sizes::power_large))]
fn times_power(size: u64, exponent: u64) -> u64
    ensures { result ≡ capped (size * 10 ^ exponent) }
{
    if size == 0 {
        return 0;
    }
    if exponent >= LARGE_EXPONENT {
        return TOO_LARGE;
    }
    cap(size.saturating_mul(10u64.pow(exponent as u32)))
}

/// The number of a sign and a size, where it's in range.
fn in_range(minus: bool, size: u64) -> Result<RankPart, NumberFault>
    ensures { result ≡ ranged (SomeValue (signed minus size)) }
{
    if size < MOST_NEGATIVE {
        let n = size as i64;
        Ok(RankPart::Number(if minus { -n } else { n }))
    } else if minus && size == MOST_NEGATIVE {
        Ok(RankPart::Number(i64::MIN))
    } else {
        Err(NumberFault::Overflow)
    }
}

#[tactic(auto, using(crate::proofs::Sizes::scaled_alike, crate::proofs::Sizes::scaled_ill))]
fn read_scaled(numeral: &[u8], exponent: &[u8]) -> Result<RankPart, NumberFault>
    ensures { result ≡ ranged (scaled numeral.now exponent.now) }
{
    let (minus, digits) = split_sign(numeral);
    match (read_digits(digits), read_digits(exponent)) {
        (Some(size), Some(power)) => in_range(minus, times_power(size, power)),
        _ => Err(NumberFault::IllFormed),
    }
}

#[tactic(auto, using(crate::proofs::Sizes::based_alike, crate::proofs::Sizes::based_ill))]
fn read_based(base: &[u8], digits: &[u8]) -> Result<RankPart, NumberFault>
    ensures { result ≡ ranged (based base.now digits.now) }
{
    let Some(base) = read_digits(base) else {
        return Err(NumberFault::IllFormed);
    };
    match read_base_digits(base, digits) {
        Some(size) => in_range(false, size),
        None => Err(NumberFault::IllFormed),
    }
}

fn is_infinity(part: &[u8]) -> bool
    ensures { result ≡ is_infinity part.now }
{
    matches!(part, [b'_'])
}

/// The number of a part that isn't a plain number, or infinite where that may be.
#[tactic(auto, using(crate::proofs::Forms::unmarked_ill))]
fn read_marked(part: &[u8], infinite: bool) -> Result<RankPart, NumberFault>
    requires { IsFalse (are_digits (unsigned part.now)) }
    ensures { result ≡ part_value infinite part.now }
{
    if infinite && is_infinity(part) {
        return Ok(RankPart::Infinite);
    }
    let (front, back) = part.split_at(first_mark(part));
    match back {
        [] => Err(NumberFault::IllFormed),
        [b'e', exponent @ ..] => read_scaled(front, exponent),
        [_, digits @ ..] => read_based(front, digits),
    }
}

/// The number of a part, or infinite where that may be.
#[tactic(auto, using(crate::proofs::Forms::plain_part, crate::proofs::Forms::not_plain))]
pub(crate) fn read_part(part: &[u8], infinite: bool) -> Result<RankPart, NumberFault>
    ensures { result ≡ part_value infinite part.now }
{
    let (minus, digits) = split_sign(part);
    match read_digits(digits) {
        Some(size) => in_range(minus, size),
        None => read_marked(part, infinite),
    }
}
