// Binary digits of numbers.
ghost use Rattle.std.specs.Prelude.{◌≡◌, ◌<◌, ◌≤◌, ◌-◌, ◌++◌, [], length, map, pos, replicate, IfOk, OnOk};
ghost use Rattle.std.specs.List.{All, flat_map};
ghost use Rattle.j_definitions.specs.Array.{product};
ghost use Rattle.j_definitions.specs.Limits.{limited};
ghost use Rattle.j_kernels.specs.Scalars.{residue};
ghost use Rattle.j_noun.specs.Refused.{OrWanting};
ghost use Rattle.j_insert.specs.Digits.{digits_from_last, numbers, binary_length, most_digits, binary, binaries, fill_digits, antibase_two};
ghost use Rattle.j_insert.specs.Listed.{listed};

use crate::numbers::{Numbers, count, number_at, numbers_of};
use j_noun::{Atoms, Fault, Kind, NoMemory, Noun, Pool, Refusal, Shape};
use j_rank::{extended, has_no_atoms, size_within};

// How many binary digits the magnitude of a number has.
fn binary_length(z: i64) -> usize
    ensures value { result ≡ binary_length z }
    ensures most { result ≤ 64 }
{
    let leading = z.unsigned_abs().leading_zeros() as usize;
    if leading >= 64 {
        return 1;
    }
    64 - leading
}

// The most binary digits of any.
fn most_digits(numbers: Numbers<'_>) -> usize
    ensures { result ≡ most_digits (listed numbers.entry) }
{
    let mut most = 0;
    for k in 0..count(numbers) {
        let length = binary_length(number_at(numbers, k));
        if length > most {
            most = length;
        }
    }
    most
}

// The last binary digit.
#[tactic(auto, using(crate::proofs::Binary::residue_two))]
fn last_bit(r: i64) -> u8
    ensures value { pos result ≡ residue (pos 2) r }
    ensures bit { result < 2 }
{
    if r.rem_euclid(2) == 0 {
        return 0;
    }
    1
}

// Appends the last d binary digits, the last one first.
#[tactic(auto, using(crate::proofs::Binary::bit_more, crate::proofs::Binary::bits_end))]
fn append_backward(out: &mut Vec<u8>, z: i64, d: usize) -> Result<(), NoMemory>
    requires { All (λ b. b < 2) out.old.items }
    ensures digits { OnOk result (map pos out.new.items ≡ map pos out.old.items ++ digits_from_last (replicate d (pos 2)) z) }
    ensures bits { OnOk result (All (λ b. b < 2) out.new.items) }
{
    let mut rest = z;
    for _ in 0..d {
        let Ok(()) = out.push(last_bit(rest)) else {
            return Err(NoMemory);
        };
        rest = rest.div_euclid(2);
    }
    Ok(())
}

// The last d binary digits of each number, in a buffer with room for so many.
#[tactic(auto, using(crate::proofs::Binary::number_more, crate::proofs::Binary::all_backward))]
fn bits_of(
    pool: &mut Pool,
    numbers: Numbers<'_>,
    d: usize,
    room: usize,
) -> Result<Vec<u8>, NoMemory>
    ensures digits { IfOk result (λ v. map pos v.items ≡ flat_map (binary d) (listed numbers.entry)) }
    ensures bits { IfOk result (λ v. All (λ b. b < 2) v.items) }
{
    let n = count(numbers);
    let mut out = pool.bytes(room)?;
    for k in 0..n {
        append_backward(&mut out, number_at(numbers, n - 1 - k), d)?;
    }
    out.reverse();
    Ok(out)
}

// The binary digits of each number, in the frame of all.
#[tactic(auto, using(crate::proofs::Binary::digits_many, crate::proofs::Binary::axes_beyond, crate::proofs::Binary::size_beyond))]
fn in_frame(pool: &mut Pool, frame: Shape, numbers: Numbers<'_>) -> Result<Noun, Refusal>
    requires { length (listed numbers) ≡ product frame }
    ensures { OrWanting (binaries frame (listed numbers.entry)) result }
{
    let most = most_digits(numbers);
    let shape = extended(frame, &[most])?;
    let Some(size) = size_within(shape.axes()) else {
        return Err(Refusal::Fault(Fault::Limit));
    };
    let bits = bits_of(pool, numbers, most, size)?;
    Noun::make(pool, shape, Atoms::Bits(bits))
}

// The shape of what a fill of that kind gives by no bases.
fn fill_digits(kind: Kind) -> &'static [usize]
    ensures { result.now ≡ fill_digits kind }
{
    match kind {
        Kind::Number => &[0],
        Kind::Character => &[],
        Kind::Boxed => &[],
    }
}

// What a frame without cells gives.
fn without_cells(pool: &mut Pool, y: &Noun) -> Result<Noun, Refusal>
    requires { length y.now.atoms ≡ 0 }
    ensures { OrWanting (limited (numbers (y.now.shape ++ fill_digits y.now.kind) [])) result }
{
    let _ = y.view();
    let shape = extended(y.shape(), fill_digits(y.kind()))?;
    let none = pool.bytes(0)?;
    Noun::make(pool, shape, Atoms::Bits(none))
}

/// The binary digits of each number, as many as the greatest magnitude has.
pub fn antibase_two(pool: &mut Pool, y: &Noun) -> Result<Noun, Refusal>
    ensures { OrWanting (antibase_two y.now) result }
{
    if has_no_atoms(y) {
        return without_cells(pool, y);
    }
    let numbers = numbers_of(y)?;
    in_frame(pool, y.shape(), numbers)
}
