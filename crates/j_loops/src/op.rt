// A verb on two elements of buffers.
ghost use Rattle.std.specs.Prelude.{◌≡◌, ◌<◌, ◌^◌, Result};
ghost use Rattle.j_definitions.specs.Array.{Atom};
ghost use Rattle.j_definitions.specs.declared.Fault.{Fault as FaultValue};
ghost use Rattle.j_loops.specs.Results.{IsGiven, IsAnswer};

use crate::stored::Stored;
use j_definitions::Fault;

/// A scalar verb on two elements as they are stored.
pub trait Op<X, Y, Z: Stored> {
    ghost left_atom: { X → Atom };

    ghost right_atom: { Y → Atom };

    ghost meaning: { Atom → Atom → Result Atom FaultValue };

    /// Whether a loop is to stop at a set top bit: where lanes do not help.
    const STOPS: bool;

    /// The result, where the top bit of the mask is not set.
    fn quick(x: X, y: Y) -> (Z, u64)
        ensures { result.1 < 2 ^ 63 → IsGiven Z.atom Z.IsKept (meaning (left_atom x) (right_atom y)) result.0 };

    fn exact(x: X, y: Y) -> Result<Z, Fault>
        ensures { IsAnswer Z.atom Z.IsKept (meaning (left_atom x) (right_atom y)) result };
}
