ghost use Rattle.std.specs.Prelude.{◌≡◌, ◌<◌, ◌≤◌, [], ◌∷◌, ◌++◌, length, IsTrue, ◌↔◌, OnOk, IfErr};
ghost use Rattle.std.specs.List.{All};

use j_definitions::Fault;
use std::marker::Model;

pub const AXIS_LIMIT: usize = 4_194_304;

/// The lengths of at most 32 axes, kept inline.
#[derive(Drop)]
pub struct Shape {
    lengths: [usize; 32],
    count: usize,
}

impl Model for Shape {
    ghost use Rattle.std.specs.Prelude.{ℕ, List, take, ◌≤◌};

    ghost Value = { List ℕ };

    ghost view = { λ s. take s.count s.lengths };

    ghost invariant = { λ s. s.count ≤ 32 };
}

impl Shape {
    pub fn new() -> Shape
        ensures { result ≡ [] }
    {
        Shape {
            lengths: [0; 32],
            count: 0,
        }
    }

    // The shape of axis lengths.
    pub(crate) fn of(axes: &[usize]) -> Shape
        requires { length axes.now ≤ 32 }
        ensures { result ≡ axes.now }
    {
        let mut lengths = [0; 32];
        lengths[..axes.len()].copy_from_slice(axes);
        Shape {
            lengths,
            count: axes.len(),
        }
    }

    pub fn axes(&self) -> &[usize]
        ensures value { result.now ≡ self.now }
        ensures rank { length self.now ≤ 32 }
    {
        &self.lengths[..self.count]
    }

    /// Appends an axis, or answers `Limit` where there are 32.
    pub fn add(&mut self, n: usize) -> Result<(), Fault>
        ensures ok { OnOk result ((self.new ≡ self.old ++ n ∷ []) × (length self.old < 32)) }
        ensures err { IfErr result (λ e. (e ≡ Fault.Limit) × (self.new ≡ self.old) × (length self.old ≡ 32)) }
    {
        if self.count == 32 {
            return Err(Fault::Limit);
        }
        self.lengths[self.count] = n;
        self.count += 1;
        Ok(())
    }

    /// Whether each axis is within its limit.
    pub fn is_within(&self) -> bool
        ensures axes { IsTrue result ↔ All (λ n. n ≤ 4194304) self.now }
        ensures rank { length self.now ≤ 32 }
    {
        self.axes().iter().all(|n| *n <= AXIS_LIMIT)
    }

    pub fn copy(&self) -> Shape
        ensures { result ≡ self.now }
    {
        Shape {
            lengths: self.lengths,
            count: self.count,
        }
    }
}
