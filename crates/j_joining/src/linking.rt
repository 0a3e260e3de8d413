// Boxes, their contents, and nouns linked as boxes.
ghost use Rattle.std.specs.Prelude.{◌≡◌, ◌≤◌, length};
ghost use Rattle.j_noun.specs.Refused.{OrWanting};
ghost use Rattle.j_joining.specs.Joining.{in_box, content, as_boxes_by, link};

use crate::joining::append;
use j_noun::{Atoms, Kind, Noun, Pool, Refusal, Shape, View, boxes};

/// The box of y.
pub fn boxed(pool: &mut Pool, y: &Noun) -> Result<Noun, Refusal>
    ensures { OrWanting (in_box y.now) result }
{
    let mut held = boxes(pool, 1)?;
    let copy = y.duplicate()?;
    let Ok(()) = held.push(copy) else {
        return Err(Refusal::NoMemory);
    };
    Noun::make(pool, Shape::new(), Atoms::Boxes(held))
}

/// The content of an atom that is boxed, else the atom.
pub fn opened(_pool: &mut Pool, y: &Noun) -> Result<Noun, Refusal>
    requires { length y.now.shape ≤ 0 }
    ensures { OrWanting (content y.now) result }
{
    match y.view() {
        View::Boxes(v) => Ok(v[0].duplicate()?),
        View::Wholes(_) => Ok(y.duplicate()?),
        View::Bits(_) => Ok(y.duplicate()?),
        View::Bytes(_) => Ok(y.duplicate()?),
    }
}

// A noun that is boxed, else the box of it.
fn as_boxes(pool: &mut Pool, y: &Noun) -> Result<Noun, Refusal>
    ensures { OrWanting (as_boxes_by y.now.kind y.now) result }
{
    match y.kind() {
        Kind::Boxed => Ok(y.duplicate()?),
        Kind::Number => boxed(pool, y),
        Kind::Character => boxed(pool, y),
    }
}

/// The box of x, joined to y where y is boxed, else to the box of y.
pub fn link(pool: &mut Pool, x: &Noun, y: &Noun) -> Result<Noun, Refusal>
    ensures { OrWanting (link x.now y.now) result }
{
    let right = as_boxes(pool, y)?;
    let left = boxed(pool, x)?;
    append(pool, &left, &right)
}
