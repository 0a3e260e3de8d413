// Elements that are whole numbers, and ranges of them.
ghost use Rattle.std.specs.Prelude.{◌≡◌, ◌≤◌, pos, ◌+ℤ◌, ◌≤ℤ◌, ◌<ℤ◌, IfSome};
ghost use Rattle.std.specs.List.{All};
ghost use Rattle.j_search.specs.Ranged.{IsBetween, LiesIn};

use crate::seeking::Key;

/// Whole numbers from a lowest one on.
#[derive(Clone, Copy)]
pub struct Range {
    pub low: i64,
    pub width: usize,
}

/// An element that is a whole number.
pub trait Numbered: Key + Ord {
    ghost use Rattle.std.specs.Prelude.{◌≡◌, ℤ};
    ghost use Rattle.std.specs.Ordering.{int_eq, int_cmp};

    ghost number: { Self → ℤ };

    fn number(&self) -> i64
        ensures { result ≡ number self.now };

    ghost alike: { Self.same ≡ Self.eq };

    ghost by_number: { (x y : Self) → Self.same x y ≡ int_eq (number x) (number y) };

    ghost by_order: { (x y : Self) → Self.cmp x y ≡ int_cmp (number x) (number y) };
}

impl Numbered for i64 {
    ghost use Rattle.std.specs.Prelude.{refl};

    ghost number = { λ z. z };

    ghost alike = { refl };

    ghost by_number = { λ x y. refl };

    ghost by_order = { λ x y. refl };

    fn number(&self) -> i64 {
        *self
    }
}

impl Numbered for u8 {
    ghost use Rattle.std.specs.Prelude.{pos, refl};
    ghost use Rattle.j_search.specs.Numbers.{same_number, same_order};

    ghost number = { pos };

    ghost alike = { refl };

    ghost by_number = { same_number };

    ghost by_order = { same_order };

    fn number(&self) -> i64 {
        i64::from(*self)
    }
}

// The lesser and the greater of two numbers.
fn lesser(a: i64, b: i64) -> i64
    ensures left { result ≤ℤ a }
    ensures right { result ≤ℤ b }
{
    if a < b { a } else { b }
}

fn greater(a: i64, b: i64) -> i64
    ensures left { a ≤ℤ result }
    ensures right { b ≤ℤ result }
{
    if a < b { b } else { a }
}

// The least and the greatest number.
fn bounds<T: Numbered>(items: &[T]) -> (i64, i64)
    ensures { All (IsBetween T.number result.0 result.1) items.now }
{
    let mut low = i64::MAX;
    let mut high = i64::MIN;
    for item in items {
        let number = item.number();
        low = lesser(low, number);
        high = greater(high, number);
    }
    (low, high)
}

// The range from the first of two numbers to the second, where it isn't wider than so much.
fn range_between(ends: (i64, i64), most: usize) -> Option<Range>
    ensures { IfSome result (λ r. (r.low ≡ ends.0) × (ends.1 <ℤ (r.low +ℤ pos r.width)) × (r.width ≤ most)) }
{
    let (low, high) = ends;
    let span = high.checked_sub(low)?;
    if 0 <= span && (span as usize) < most {
        Some(Range {
            low,
            width: span as usize + 1,
        })
    } else {
        None
    }
}

/// The range of the items, where it isn't wider than so much.
pub fn range_of<T: Numbered>(items: &[T], most: usize) -> Option<Range>
    ensures { IfSome result (λ r. All (λ x. LiesIn r (T.number x)) items.now × (r.width ≤ most)) }
{
    let ends = bounds(items);
    range_between(ends, most)
}

/// The range of the items and the cells, where it isn't wider than so much.
pub fn range_of_both<T: Numbered>(items: &[T], cells: &[T], most: usize) -> Option<Range>
    ensures { IfSome result (λ r. All (λ x. LiesIn r (T.number x)) items.now × All (λ x. LiesIn r (T.number x)) cells.now × (r.width ≤ most)) }
{
    let (low, high) = bounds(items);
    let (least, greatest) = bounds(cells);
    range_between((lesser(low, least), greater(high, greatest)), most)
}
