// The axis lengths that a noun keeps.
ghost use Rattle.std.specs.Prelude.{◌≡◌, ◌≤◌, length, IfOk, IsOk};
ghost use Rattle.j_noun.specs.Axes.{lengths_kept, IsShort};

use crate::shape::Shape;
use j_pool::NoMemory;
use std::alloc::Global;
use std::marker::Model;

// As many lengths as are kept inline.
const FEW: usize = 4;

/// At most 32 axis lengths: few are kept inline, and more in a buffer.
#[derive(Drop)]
pub(crate) struct Axes {
    kept: Kept,
}

#[derive(Drop)]
enum Kept {
    Few { lengths: [usize; 4], count: usize },
    Many(Vec<usize>),
}

impl Model for Axes {
    ghost use Rattle.std.specs.Prelude.{ℕ, List};
    ghost use Rattle.j_noun.specs.Axes.{lengths_kept, IsShort};

    ghost Value = { List ℕ };

    ghost view = { λ a. lengths_kept a.kept };

    ghost invariant = { λ a. IsShort a.kept };
}

impl Axes {
    /// The lengths of a shape. Few ask for no memory.
    pub(crate) fn of(alloc: Global, shape: &Shape) -> Result<Axes, NoMemory>
        ensures ok { IfOk result (λ a. a ≡ shape.now) }
        ensures few { length shape.now ≤ 4 → IsOk result }
    {
        let axes = shape.axes();
        if axes.len() > FEW {
            return Axes::many(alloc, axes);
        }
        let mut lengths = [0; 4];
        lengths[..axes.len()].copy_from_slice(axes);
        Ok(Axes {
            kept: Kept::Few {
                lengths,
                count: axes.len(),
            },
        })
    }

    // Lengths in a buffer.
    fn many(alloc: Global, axes: &[usize]) -> Result<Axes, NoMemory>
        requires { length axes.now ≤ 32 }
        ensures { IfOk result (λ a. a ≡ axes.now) }
    {
        match Vec::from_slice(alloc, axes) {
            Ok(lengths) => Ok(Axes {
                kept: Kept::Many(lengths),
            }),
            Err(_) => Err(NoMemory),
        }
    }

    pub(crate) fn axes(&self) -> &[usize]
        ensures value { result.now ≡ self.now }
        ensures rank { length self.now ≤ 32 }
    {
        match &self.kept {
            Kept::Few { lengths, count } => &lengths[..*count],
            Kept::Many(lengths) => lengths,
        }
    }
}
