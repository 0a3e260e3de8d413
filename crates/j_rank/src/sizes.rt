// Shapes and how many atoms they have.
ghost use Rattle.std.specs.Prelude.{◌≡◌, ◌<◌, ◌≤◌, ◌+◌, ◌++◌, length, MatchOption, IfOk, IfErr};
ghost use Rattle.j_definitions.specs.Array.{product};

use j_noun::{Fault, Shape};

pub const CELL_LIMIT: usize = 4_194_304;

/// The product of lengths, where it is within the limit.
pub fn size_within(axes: &[usize]) -> Option<usize>
    ensures { MatchOption result (4194304 < product axes.now) (λ n. (n ≡ product axes.now) × (n ≤ 4194304)) }
{
    if axes.contains(&0) {
        return Some(0);
    }
    let mut size: usize = 1;
    for n in axes {
        let Some(more) = size.checked_mul(*n) else {
            return None;
        };
        if more > CELL_LIMIT {
            return None;
        }
        size = more;
    }
    Some(size)
}

/// A shape with axes behind its own.
pub fn extended(mut shape: Shape, axes: &[usize]) -> Result<Shape, Fault>
    ensures ok { IfOk result (λ s. s ≡ shape ++ axes.now) }
    ensures err { IfErr result (λ e. (e ≡ Fault.Limit) × (32 < length shape + length axes.now)) }
{
    for n in axes {
        shape.add(*n)?;
    }
    Ok(shape)
}

/// The shape of these axes.
pub fn shape_of(axes: &[usize]) -> Shape
    requires { length axes.now ≤ 32 }
    ensures { result ≡ axes.now }
{
    match extended(Shape::new(), axes) {
        Ok(shape) => shape,
        Err(_) => unreachable!(),
    }
}
