// Frames without axes, where a verb takes the whole of its arguments.
ghost use Rattle.std.specs.Prelude.{◌≡◌, nat_eq, ◌&&◌, length, Ok, [], ◌∷◌, IsTrue};
ghost use Rattle.j_rank.specs.Assembly.{assemble};
ghost use Rattle.j_rank.specs.Cells.{frame_axes, cell};
ghost use Rattle.j_rank.specs.Plans.{dyad_plan, monad_plan, planned};

use crate::cells::frame_axes;
use j_noun::{Noun, Rank};

/// Whether a monad of that rank takes the whole of y.
#[tactic(auto, using(crate::proofs::Single::whole_cell))]
pub fn is_whole(rank: Rank, y: &Noun) -> bool
    ensures axes { result ≡ nat_eq (frame_axes rank (length y.now.shape)) 0 }
    ensures plan { IsTrue result → monad_plan rank y.now.shape ≡ Ok (planned [] 0 0) }
    ensures cell { cell 0 y.now 0 ≡ y.now }
{
    let _ = y.view();
    frame_axes(rank, y.axes().len()) == 0
}

/// Whether a dyad of these ranks takes the whole of x and of y.
#[tactic(auto, using(crate::proofs::Single::whole_cell))]
pub fn are_whole(left: Rank, right: Rank, x: &Noun, y: &Noun) -> bool
    ensures axes { result ≡ (nat_eq (frame_axes left (length x.now.shape)) 0 && nat_eq (frame_axes right (length y.now.shape)) 0) }
    ensures plan { IsTrue result → dyad_plan left right x.now.shape y.now.shape ≡ Ok (planned [] 0 0) }
    ensures left { cell 0 x.now 0 ≡ x.now }
    ensures right { cell 0 y.now 0 ≡ y.now }
{
    let _ = x.view();
    let _ = y.view();
    frame_axes(left, x.axes().len()) == 0 && frame_axes(right, y.axes().len()) == 0
}

/// The noun of the one result where the frame has no axes: the result itself.
#[tactic(auto, using(crate::proofs::Single::assemble_one))]
pub fn alone(r: Noun) -> Noun
    ensures same { result ≡ r }
    ensures noun { assemble [] (r ∷ []) ≡ Ok result }
{
    let _ = r.view();
    r
}
