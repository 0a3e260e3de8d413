// The frame of a noun, and its cells.
ghost use Rattle.std.specs.Prelude.{◌≡◌, ◌<◌, ◌≤◌, length, take, IfOk, IsOk};
ghost use Rattle.j_definitions.specs.Array.{product};
ghost use Rattle.j_definitions.specs.Limits.{limited};
ghost use Rattle.j_noun.specs.Held.{IsInline};
ghost use Rattle.j_noun.specs.Refused.{OrWanting};
ghost use Rattle.j_rank.specs.Cells.{frame_axes, frame_of, cell, cell_of_fills};

use crate::atoms::{atom_of, atoms_of_part, fills};
use crate::sizes::{shape_of, size_within};
use j_noun::{Fault, NoMemory, Noun, Pool, Rank, Refusal};
use std::cmp;

/// How many of n axes are the frame.
pub fn frame_axes(rank: Rank, n: usize) -> usize
    ensures value { result ≡ frame_axes rank n }
    ensures within { result ≤ n }
{
    match rank {
        Rank::Number(r) if r < 0 => cmp::min(r.unsigned_abs() as usize, n),
        Rank::Number(r) => n.saturating_sub(r as usize),
        Rank::Infinite => 0,
    }
}

/// The lengths of the frame.
pub fn frame_of(rank: Rank, y: &Noun) -> &[usize]
    ensures value { result.now ≡ frame_of rank y.now.shape }
    ensures axes { length result.now ≡ frame_axes rank (length y.now.shape) }
    ensures within { length result.now ≤ length y.now.shape }
    ensures few { length result.now ≤ 32 }
{
    let axes = y.axes();
    &axes[..frame_axes(rank, axes.len())]
}

/// Cell k, where n axes are the frame. The whole noun shares its buffer, and an atom that isn't boxed takes no memory.
pub fn cell_of(pool: &mut Pool, y: &Noun, n: usize, k: usize) -> Result<Noun, NoMemory>
    requires axes { n ≤ length y.now.shape }
    requires place { k < product (take n y.now.shape) }
    ensures ok { IfOk result (λ a. a ≡ cell n y.now k) }
    ensures atom { IsInline (cell n y.now k) → IsOk result }
{
    if n == 0 {
        return y.duplicate();
    }
    let atoms = y.view();
    let axes = y.axes();
    if n == axes.len() {
        return atom_of(pool, y, k);
    }
    let own = &axes[n..];
    let Some(size) = size_within(own) else {
        return Err(NoMemory);
    };
    let taken = atoms_of_part(pool, atoms, k, size)?;
    match Noun::make(pool, shape_of(own), taken) {
        Ok(cell) => Ok(cell),
        Err(_) => Err(NoMemory),
    }
}

/// The cell of fills, where n axes are the frame.
pub fn fills_of(pool: &mut Pool, y: &Noun, n: usize) -> Result<Noun, Refusal>
    requires { n ≤ length y.now.shape }
    ensures { OrWanting (limited (cell_of_fills n y.now)) result }
{
    let own = &y.axes()[n..];
    let Some(size) = size_within(own) else {
        return Err(Refusal::Fault(Fault::Limit));
    };
    let atoms = fills(pool, y.kind(), size)?;
    Noun::make(pool, shape_of(own), atoms)
}
