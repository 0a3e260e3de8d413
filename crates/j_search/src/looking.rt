// Cells that are looked up among cells.
ghost use Rattle.std.specs.Prelude.{◌≡◌, ◌≤◌, true, pos, map, IfOk};
ghost use Rattle.j_definitions.specs.Array.{tally};
ghost use Rattle.j_search.specs.Framed.{IsFrame, cell_places};
ghost use Rattle.j_search.specs.Matching.{places, first_item, item_of};
ghost use Rattle.j_search.specs.Sought.{place_of};

use crate::among::{among, everywhere};
use crate::frames::{Frame, atom_count, have_one_shape, items_frame};
use crate::seeking::{Side, Sizes};
use j_noun::{NoMemory, Noun, Pool};

// The place where all of some items match.
fn place_of_all(side: Side, count: usize) -> usize
    ensures value { result ≡ place_of side (λ j. true) count }
    ensures within { result ≤ count }
{
    match side {
        Side::First => 0,
        Side::Last => count.saturating_sub(1),
    }
}

/// The place of each cell of y among the cells of x: the number of these where it is none of them.
pub fn look_up(
    pool: &mut Pool,
    side: Side,
    x: &Noun,
    f: Frame,
    y: &Noun,
    g: Frame,
) -> Result<Vec<i64>, NoMemory>
    requires left { IsFrame x.now.shape f }
    requires right { IsFrame y.now.shape g }
    ensures { IfOk result (λ v. v.items ≡ cell_places side x.now f y.now g) }
{
    let x_atoms = x.view();
    let y_atoms = y.view();
    if f.count == 0 {
        return everywhere(pool, f.count, g.count);
    }
    if !have_one_shape(x, f.axes, y, g.axes) {
        return everywhere(pool, f.count, g.count);
    }
    let size = atom_count(x_atoms) / f.count;
    if size == 0 {
        return everywhere(pool, place_of_all(side, f.count), g.count);
    }
    let sizes = Sizes {
        items: f.count,
        cells: g.count,
        size,
    };
    among(pool, side, sizes, x_atoms, y_atoms)
}

/// The first item that matches each item.
pub fn first_places(pool: &mut Pool, y: &Noun) -> Result<Vec<i64>, NoMemory>
    ensures places { IfOk result (λ v. v.items ≡ map (λ k. pos (first_item y.now (item_of y.now k))) (places (tally y.now.shape))) }
    ensures few { tally y.now.shape ≤ 4194304 }
{
    let frame = items_frame(y);
    look_up(pool, Side::First, y, frame, y, frame)
}
