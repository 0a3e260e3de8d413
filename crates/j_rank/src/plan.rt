// Plans: which cells of a verb's arguments meet.
ghost use Rattle.std.specs.Prelude.{◌≡◌, ◌<◌, ◌≤◌, ◌/◌, [], length, take, drop, IfOk, IfErr, IsOk};
ghost use Rattle.j_definitions.specs.Array.{product};
ghost use Rattle.j_rank.specs.Cells.{cell, cell_of_fills};
ghost use Rattle.j_definitions.specs.Limits.{limited};
ghost use Rattle.j_noun.specs.Held.{IsInline};
ghost use Rattle.j_noun.specs.Refused.{OrWanting};
ghost use Rattle.j_rank.specs.Plans.{dyad_plan, monad_plan, plan_of, planned, HasCells, Repeats};

use crate::cells::{cell_of, fills_of, frame_of};
use crate::sizes::{shape_of, size_within};
use j_noun::{Fault, NoMemory, Noun, Pool, Rank, Refusal, Shape};
use std::marker::Model;

/// Which cells meet, in the order of the frame. A monad's plan has one left cell.
#[derive(Drop)]
pub struct Plan {
    frame: Shape,
    count: usize,
    left: Side,
    right: Side,
}

// How many axes are the frame of an argument, and how many pairs in a row share each of its cells.
#[derive(Clone, Copy)]
struct Side {
    axes: usize,
    times: usize,
}

impl Model for Plan {
    ghost use Rattle.j_rank.specs.Plans.{Planned, planned, IsPlan};

    ghost Value = { Planned };

    ghost view = { λ p. planned p.frame p.left.axes p.right.axes };

    ghost invariant = { λ p. IsPlan p.frame p.count p.left.axes p.left.times p.right.axes p.right.times };
}

// A side of a frame whose first axes are its own.
fn repeats(frame: &[usize], axes: usize) -> Side
    requires own { axes ≤ length frame.now }
    requires few { product frame.now ≤ 4194304 }
    ensures same { result.axes ≡ axes }
    ensures repeats { Repeats frame.now axes result.times }
{
    match size_within(&frame[axes..]) {
        Some(times) => Side { axes, times },
        None => Side { axes, times: 0 },
    }
}

// The plan of an agreed frame.
fn plan_within(frame: &[usize], left: usize, right: usize) -> Result<Plan, Fault>
    requires rank { length frame.now ≤ 32 }
    requires left { left ≤ length frame.now }
    requires right { right ≤ length frame.now }
    ensures { result ≡ plan_of left right (Some (planned frame.now left right).agreed) }
{
    let Some(count) = size_within(frame) else {
        return Err(Fault::Limit);
    };
    Ok(Plan {
        frame: shape_of(frame),
        count,
        left: repeats(frame, left),
        right: repeats(frame, right),
    })
}

/// The cells of a monad of that rank.
pub fn plan_monad(rank: Rank, y: &Noun) -> Result<Plan, Fault>
    ensures plan { result ≡ monad_plan rank y.now.shape }
    ensures right { IfOk result (λ p. HasCells p.right p.agreed.frame y.now.shape) }
{
    let frame = frame_of(rank, y);
    plan_within(frame, 0, frame.len())
}

/// The pairs of cells of a dyad of these ranks.
pub fn plan_dyad(left: Rank, right: Rank, x: &Noun, y: &Noun) -> Result<Plan, Fault>
    ensures plan { result ≡ dyad_plan left right x.now.shape y.now.shape }
    ensures left { IfOk result (λ p. HasCells p.left p.agreed.frame x.now.shape) }
    ensures right { IfOk result (λ p. HasCells p.right p.agreed.frame y.now.shape) }
{
    let a = frame_of(left, x);
    let b = frame_of(right, y);
    if b.starts_with(a) {
        return plan_within(b, a.len(), b.len());
    }
    if a.starts_with(b) {
        return plan_within(a, a.len(), b.len());
    }
    Err(Fault::Length)
}

impl Plan {
    pub fn frame(&self) -> &Shape
        ensures { result.now ≡ self.now.agreed.frame }
    {
        &self.frame
    }

    /// How many cells, or pairs of cells, there are.
    pub fn count(&self) -> usize
        ensures value { result ≡ product self.now.agreed.frame }
        ensures limit { result ≤ 4194304 }
    {
        self.count
    }

    /// The left cell of pair k.
    pub fn left(&self, pool: &mut Pool, x: &Noun, k: usize) -> Result<Noun, NoMemory>
        requires place { k < product self.now.agreed.frame }
        requires shape { HasCells self.now.left self.now.agreed.frame x.now.shape }
        ensures ok { IfOk result (λ a. a ≡ cell self.now.left x.now (k / self.now.agreed.left)) }
        ensures atom { IsInline (cell self.now.left x.now (k / self.now.agreed.left)) → IsOk result }
    {
        cell_of(pool, x, self.left.axes, k / self.left.times)
    }

    /// The right cell of pair k, or cell k of a monad.
    pub fn right(&self, pool: &mut Pool, y: &Noun, k: usize) -> Result<Noun, NoMemory>
        requires place { k < product self.now.agreed.frame }
        requires shape { HasCells self.now.right self.now.agreed.frame y.now.shape }
        ensures ok { IfOk result (λ a. a ≡ cell self.now.right y.now (k / self.now.agreed.right)) }
        ensures atom { IsInline (cell self.now.right y.now (k / self.now.agreed.right)) → IsOk result }
    {
        cell_of(pool, y, self.right.axes, k / self.right.times)
    }

    /// A left cell of fills.
    pub fn fill_left(&self, pool: &mut Pool, x: &Noun) -> Result<Noun, Refusal>
        requires { self.now.left ≤ length x.now.shape }
        ensures { OrWanting (limited (cell_of_fills self.now.left x.now)) result }
    {
        fills_of(pool, x, self.left.axes)
    }

    /// A right cell of fills.
    pub fn fill_right(&self, pool: &mut Pool, y: &Noun) -> Result<Noun, Refusal>
        requires { self.now.right ≤ length y.now.shape }
        ensures { OrWanting (limited (cell_of_fills self.now.right y.now)) result }
    {
        fills_of(pool, y, self.right.axes)
    }
}
