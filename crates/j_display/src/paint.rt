// How nouns in boxes are painted.
ghost use Rattle.std.specs.Prelude.{◌≡◌, ◌+◌, ◌*◌, ◌-◌, ◌<◌, ◌≤◌, [], ◌∷◌, ◌++◌, length, map, OnOk, IfOk};
ghost use Rattle.std.specs.List.{flat_map, range_with_len};
ghost use Rattle.j_definitions.specs.Array.{product};
ghost use Rattle.j_display.specs.Rows.{padded, rule, above, box_row, height_of, box_rows, noun_rows};
ghost use Rattle.j_display.specs.Sizes.{row_bytes};
ghost use Rattle.j_display.specs.Measured.{noun_sizes, own_sizes, StandAt, IsGridOf, grid_of, blanks_below, bars};
ghost use Rattle.j_display.specs.Blocks.{extended};

use crate::arranged::arrange;
use crate::canvas::Canvas;
use crate::display::view_len;
use crate::grid::{plus, row_length, what_stands_above};
use crate::leaves::{paint_leaf, paint_no_atoms};
use j_noun::{NoMemory, Noun, Pool, View};

/// The axes that lines stand in, the widths of the columns and the heights of the lines.
#[derive(Clone, Copy)]
pub struct Grid<'a> {
    pub frame: &'a [usize],
    pub widths: &'a [usize],
    pub heights: &'a [usize],
}

/// The next of the sizes, and the row where painting goes on.
#[derive(Clone, Copy)]
pub struct Spot {
    pub next: usize,
    pub row: usize,
}

/// The grid of boxes, by the sizes that stand at a place.
pub fn grid_at<'a>(axes: &'a [usize], contents: &[Noun], sizes: &'a [usize], at: usize) -> Grid<'a>
    requires some { 0 < length contents.now }
    requires few { length contents.now ≤ 4194304 }
    requires many { length contents.now ≡ product axes.now }
    requires rank { length axes.now ≤ 32 }
    requires sizes { StandAt sizes.now at (own_sizes axes.now (map noun_rows contents.now)) }
    ensures grid { IsGridOf result (map noun_rows contents.now) }
    ensures rows { grid_of result (map noun_rows contents.now) ≡ box_rows axes.now (map noun_rows contents.now) }
    ensures room { at + (length result.widths.now + length result.heights.now) ≤ length sizes.now }
    ensures sizes { length (own_sizes axes.now (map noun_rows contents.now)) ≡ length result.widths.now + length result.heights.now }
{
    let all = arrange(axes, contents.len());
    let middle = at + all.columns;
    Grid {
        frame: all.frame,
        widths: &sizes[at..middle],
        heights: &sizes[middle..middle + all.count],
    }
}

/// Paints a rule, and blanks up to a width.
fn paint_rule(
    widths: &[usize],
    size: usize,
    width: usize,
    row: usize,
    canvas: &mut Canvas,
) -> Result<(), NoMemory>
    requires size { size ≡ row_bytes widths.now + 1 }
    ensures { OnOk result (canvas.new ≡ extended canvas.old row (padded width (rule widths.now) ∷ [])) }
{
    canvas.append(row, b"+")?;
    for column in widths {
        canvas.append_copies(row, b'-', *column)?;
        canvas.append(row, b"+")?;
    }
    canvas.append_copies(row, b' ', width.saturating_sub(size))?;
    Ok(())
}

/// Paints what stands above line k, and gives the row after it.
fn paint_above(
    grid: Grid<'_>,
    k: usize,
    size: usize,
    width: usize,
    row: usize,
    canvas: &mut Canvas,
) -> Result<usize, NoMemory>
    requires some { 0 < product grid.frame.now }
    requires few { product grid.frame.now ≤ 4194304 }
    requires rank { length grid.frame.now ≤ 32 }
    requires size { size ≡ row_bytes grid.widths.now + 1 }
    ensures row { IfOk result (λ n. n ≡ row + length (above grid.entry.frame.now grid.entry.widths.now k)) }
    ensures canvas { OnOk result (canvas.new ≡ extended canvas.old row (map (padded width) (above grid.entry.frame.now grid.entry.widths.now k))) }
{
    let above = what_stands_above(grid.frame, k);
    let end = plus(row, above.gap)?;
    canvas.append_to_each(row, above.gap, b' ', width)?;
    if above.rules == 0 {
        return Ok(end);
    }
    paint_rule(grid.widths, size, width, end, canvas)?;
    let next = plus(end, 1)?;
    Ok(next)
}

/// Ends the rows of a line with blanks up to a width, paints the rule under it, and gives the row after that.
fn close_line(
    widths: &[usize],
    height: usize,
    size: usize,
    width: usize,
    row: usize,
    canvas: &mut Canvas,
) -> Result<usize, NoMemory>
    requires size { size ≡ row_bytes widths.now + 1 }
    ensures row { IfOk result (λ n. n ≡ row + (height + 1)) }
    ensures canvas { OnOk result (canvas.new ≡ extended canvas.old row (blanks_below height (width - size) ++ padded width (rule widths.now) ∷ [])) }
{
    let end = plus(row, height)?;
    canvas.append_to_each(row, height, b' ', width.saturating_sub(size))?;
    paint_rule(widths, size, width, end, canvas)?;
    let next = plus(end, 1)?;
    Ok(next)
}

/// Fills the rows of a box below its content, and ends each with a bar.
fn close_box(
    width: usize,
    height: usize,
    end: usize,
    row: usize,
    canvas: &mut Canvas,
) -> Result<(), NoMemory>
    requires { end ≤ row + height }
    ensures { OnOk result (canvas.new ≡ extended (extended canvas.old end (blanks_below (row + height - end) width)) row (bars height)) }
{
    let bottom = plus(row, height)?;
    canvas.append_to_each(end, bottom - end, b' ', width)?;
    canvas.append_to_each(row, height, b'|', 1)?;
    Ok(())
}

/// Paints a line of boxes, and gives the next of the sizes.
#[cycle(paint)]
fn paint_line(
    pool: &mut Pool,
    contents: &[Noun],
    widths: &[usize],
    height: usize,
    sizes: &[usize],
    from: Spot,
    canvas: &mut Canvas,
) -> Result<usize, NoMemory>
    requires same { length contents.now ≡ length widths.now }
    requires height { height ≡ height_of (map noun_rows contents.now) }
    requires sizes { StandAt sizes.now from.next (flat_map noun_sizes contents.now) }
    ensures next { IfOk result (λ n. n ≡ from.next + length (flat_map noun_sizes contents.now)) }
    ensures canvas { OnOk result (canvas.new ≡ extended canvas.old from.row (map (box_row widths.now (map noun_rows contents.now)) (range_with_len 0 height))) }
{
    let _bottom = plus(from.row, height)?;
    canvas.append_to_each(from.row, height, b'|', 1)?;
    let mut next = from.next;
    for j in 0..widths.len() {
        let spot = Spot {
            next,
            row: from.row,
        };
        let end = paint(pool, &contents[j], sizes, spot, widths[j], canvas)?;
        close_box(widths[j], height, end.row, from.row, canvas)?;
        next = end.next;
    }
    Ok(next)
}

/// Paints boxes, each row with blanks up to a width, and gives the spot after them.
#[cycle(paint)]
fn paint_boxes(
    pool: &mut Pool,
    contents: &[Noun],
    grid: Grid<'_>,
    sizes: &[usize],
    from: Spot,
    width: usize,
    canvas: &mut Canvas,
) -> Result<Spot, NoMemory>
    requires grid { IsGridOf grid (map noun_rows contents.now) }
    requires sizes { StandAt sizes.now from.next (flat_map noun_sizes contents.now) }
    ensures next { IfOk result (λ p. p.next ≡ from.next + length (flat_map noun_sizes contents.now)) }
    ensures row { IfOk result (λ p. p.row ≡ from.row + length (grid_of grid.entry (map noun_rows contents.now))) }
    ensures canvas { OnOk result (canvas.new ≡ extended canvas.old from.row (map (padded width) (grid_of grid.entry (map noun_rows contents.now)))) }
{
    let size = row_length(grid.widths)?;
    let columns = grid.widths.len();
    let mut at = from;
    for k in 0..grid.heights.len() {
        let first = k * columns;
        let line = &contents[first..first + columns];
        let row = paint_above(grid, k, size, width, at.row, canvas)?;
        let spot = Spot { next: at.next, row };
        let next = paint_line(
            pool,
            line,
            grid.widths,
            grid.heights[k],
            sizes,
            spot,
            canvas,
        )?;
        let row = close_line(grid.widths, grid.heights[k], size, width, row, canvas)?;
        at = Spot { next, row };
    }
    Ok(at)
}

/// Paints a noun, each row with blanks up to a width, and gives the spot after it.
#[cycle(paint)]
pub fn paint(
    pool: &mut Pool,
    y: &Noun,
    sizes: &[usize],
    from: Spot,
    width: usize,
    canvas: &mut Canvas,
) -> Result<Spot, NoMemory>
    requires sizes { StandAt sizes.now from.next (noun_sizes y.now) }
    ensures next { IfOk result (λ p. p.next ≡ from.next + length (noun_sizes y.now)) }
    ensures row { IfOk result (λ p. p.row ≡ from.row + length (noun_rows y.now)) }
    ensures canvas { OnOk result (canvas.new ≡ extended canvas.old from.row (map (padded width) (noun_rows y.now))) }
{
    let atoms = y.view();
    if view_len(atoms) == 0 {
        let row = paint_no_atoms(y.axes(), width, from.row, canvas)?;
        return Ok(Spot {
            next: from.next,
            row,
        });
    }
    match atoms {
        View::Boxes(contents) => {
            let grid = grid_at(y.axes(), contents, sizes, from.next);
            let next = from.next + (grid.widths.len() + grid.heights.len());
            let spot = Spot {
                next,
                row: from.row,
            };
            paint_boxes(pool, contents, grid, sizes, spot, width, canvas)
        }
        View::Wholes(_) | View::Bits(_) | View::Bytes(_) => {
            let row = paint_leaf(pool, y.axes(), atoms, width, from.row, canvas)?;
            Ok(Spot {
                next: from.next,
                row,
            })
        }
    }
}
