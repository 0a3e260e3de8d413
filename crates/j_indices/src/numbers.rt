// The numbers of an argument, in either storage.
ghost use Rattle.std.specs.Prelude.{◌≡◌, ◌<◌, ◌≤◌, ℤ, pos, length, map, unsigned_abs, MatchOption, IfOk, IfSome, Ok as OkValue, Err as ErrValue};
ghost use Rattle.j_definitions.specs.declared.Fault.TheVariants.{Domain as DomainFault, Index as IndexFault};
ghost use Rattle.j_definitions.specs.Array.{IsNoun};
ghost use Rattle.std.specs.List.{All};
ghost use Rattle.j_noun.specs.Refused.{OrWantingAs};
ghost use Rattle.j_indices.specs.Numbers.{whole_numbers, count_of, counts_of, index_in, indices_in, IsTotal};
ghost use Rattle.j_indices.specs.Seen.{seen};

use j_noun::{Fault, Noun, Pool, Refusal, View};

/// A number as it is stored.
pub trait Whole: Copy + Drop {
    ghost value: { Self → ℤ };

    fn whole(self) -> i64
        ensures { result ≡ value self };

    fn magnitude(self) -> usize
        ensures { result ≡ unsigned_abs (value self) };

    /// The number as a count, unless it is negative.
    fn count(self) -> Option<usize>
        ensures { MatchOption result (count_of (value self) ≡ ErrValue DomainFault) (λ n. (count_of (value self) ≡ OkValue n) × (n ≡ unsigned_abs (value self))) };

    /// The place that the number indexes among n, if there is one.
    fn index(self, n: usize) -> Option<usize>
        ensures { MatchOption result (index_in n (value self) ≡ ErrValue IndexFault) (λ k. (index_in n (value self) ≡ OkValue k) × (k < n)) };
}

/// The place among n that an index counts from the start, or from the end where it is negative.
#[tactic(auto, using(crate::proofs::Indices::early_index, crate::proofs::Indices::late_index, crate::proofs::Indices::early_beyond, crate::proofs::Indices::late_beyond))]
pub fn index_of(n: usize, index: i64) -> Option<usize>
    ensures { MatchOption result (index_in n index ≡ ErrValue IndexFault) (λ k. (index_in n index ≡ OkValue k) × (k < n)) }
{
    let size = index.unsigned_abs() as usize;
    if index >= 0 {
        return if size < n { Some(size) } else { None };
    }
    if size <= n { Some(n - size) } else { None }
}

impl Whole for i64 {
    ghost value = { λ z. z };

    fn whole(self) -> i64 {
        self
    }

    fn magnitude(self) -> usize {
        self.unsigned_abs() as usize
    }

    #[tactic(auto, using(crate::proofs::Counts::negative_count, crate::proofs::Counts::other_count))]
    fn count(self) -> Option<usize> {
        if self < 0 {
            None
        } else {
            Some(self.unsigned_abs() as usize)
        }
    }

    fn index(self, n: usize) -> Option<usize> {
        index_of(n, self)
    }
}

impl Whole for u8 {
    ghost value = { λ b. pos b };

    fn whole(self) -> i64 {
        i64::from(self)
    }

    fn magnitude(self) -> usize {
        self as usize
    }

    fn count(self) -> Option<usize> {
        Some(self as usize)
    }

    #[tactic(auto, using(crate::proofs::Indices::early_index, crate::proofs::Indices::early_beyond))]
    fn index(self, n: usize) -> Option<usize> {
        let place = self as usize;
        if place < n { Some(place) } else { None }
    }
}

/// Numbers in either storage.
#[derive(Clone, Copy)]
pub enum Numbers<'a> {
    Wholes(&'a [i64]),
    Bits(&'a [u8]),
}

/// The numbers of a noun, or none where an atom is no number.
pub fn numbers_of(y: &Noun) -> Option<Numbers<'_>>
    ensures numbers { MatchOption result (whole_numbers y.now.atoms ≡ ErrValue DomainFault) (λ n. whole_numbers y.now.atoms ≡ OkValue (seen n)) }
    ensures few { IfSome result (λ n. length (seen n) ≤ 4194304) }
    ensures many { IfSome result (λ n. length (seen n) ≡ length y.now.atoms) }
    ensures noun { IsNoun y.now }
{
    match y.view() {
        View::Wholes(v) => Some(Numbers::Wholes(v)),
        View::Bits(v) => Some(Numbers::Bits(v)),
        View::Bytes([]) => Some(Numbers::Wholes(&[])),
        View::Boxes([]) => Some(Numbers::Wholes(&[])),
        View::Bytes(_) => None,
        View::Boxes(_) => None,
    }
}

/// The sum of counts, up to the greatest machine number, or none where one is negative.
pub fn total_of<N: Whole>(counts: &[N]) -> Option<usize>
    ensures { MatchOption result (counts_of (map N.value counts.now) ≡ ErrValue DomainFault) (λ n. IsTotal (map N.value counts.now) n) }
{
    let mut total: usize = 0;
    for n in counts {
        let Some(count) = n.count() else {
            return None;
        };
        total = total.saturating_add(count);
    }
    Some(total)
}

/// The places among n that indices count, or `index error`.
pub fn places_of<N: Whole>(pool: &mut Pool, n: usize, indices: &[N]) -> Result<Vec<usize>, Refusal>
    ensures places { OrWantingAs (λ v. v.items) (indices_in n (map N.value indices.now)) result }
    ensures within { IfOk result (λ v. All (λ k. k < n) v.items) }
    ensures many { IfOk result (λ v. length v.items ≡ length indices.now) }
{
    let mut out = pool.fresh(indices.len())?;
    for index in indices {
        let Some(place) = index.index(n) else {
            return Err(Refusal::Fault(Fault::Index));
        };
        let Ok(()) = out.push(place) else {
            return Err(Refusal::NoMemory);
        };
    }
    Ok(out)
}
