// How wide and how high what is in boxes is: found once for each noun, before anything is written.
ghost use Rattle.std.specs.Prelude.{◌≡◌, ◌≢◌, ◌+◌, ◌*◌, ◌<◌, ◌≤◌, [], ◌∷◌, ◌++◌, length, map, take, drop, fold, max, replicate, OnOk, IfOk};
ghost use Rattle.std.specs.List.{flat_map};
ghost use Rattle.j_definitions.specs.Array.{product};
ghost use Rattle.j_definitions.specs.declared.Kind.TheVariants.{Number, Boxed};
ghost use Rattle.j_noun.specs.Viewed.{viewed, kind_viewed};
ghost use Rattle.j_display.specs.Rows.{pieces, wider, greatest, line_frame, line_length, width_of, noun_rows, box_rows, rows_without_atoms, lines_stacked};
ghost use Rattle.j_display.specs.Measured.{IsSize, own_sizes, noun_sizes};

use crate::arranged::arrange;
use crate::display::view_len;
use crate::grid::{grid_height, plus, row_length};
use crate::leaves::{line_size, line_widths};
use crate::lines::Lines;
use crate::sizes::stacked_bytes;
use j_noun::{NoMemory, Noun, Pool, View};

/// How wide and how high the rows of a noun are.
#[derive(Clone, Copy)]
pub struct Size {
    pub width: usize,
    pub height: usize,
}

fn greater(a: usize, b: usize) -> usize
    ensures { result ≡ max a b }
{
    if a < b { b } else { a }
}

/// The greatest of some numbers, or 0.
fn greatest(values: &[usize]) -> usize
    ensures { result ≡ greatest values.now }
{
    let mut most = 0;
    for value in values {
        most = greater(most, *value);
    }
    most
}

/// Makes columns as wide as a line needs.
fn widen_columns(widths: &mut [usize], line: &[usize])
    requires { length widths.old ≡ length line.now }
    ensures { widths.new ≡ wider widths.old line.now }
{
    for j in 0..widths.len() {
        let wide = greater(widths[j], line[j]);
        widths[j] = wide;
    }
}

/// How wide each column is, by the widths of the contents.
fn widest_columns(
    pool: &mut Pool,
    widths: &[usize],
    count: usize,
    columns: usize,
) -> Result<Vec<usize>, NoMemory>
    requires whole { count * columns ≡ length widths.now }
    requires few { length widths.now ≤ 4194304 }
    ensures { IfOk result (λ v. v.items ≡ fold wider (replicate columns 0) (pieces count columns widths.now)) }
{
    let mut widest = pool.fresh(columns)?;
    let Ok(()) = widest.resize(columns, 0) else {
        return Err(NoMemory);
    };
    for k in 0..count {
        let from = k * columns;
        widen_columns(&mut widest, &widths[from..from + columns]);
    }
    Ok(widest)
}

/// How high each line is, by the heights of the contents.
fn highest_lines(
    pool: &mut Pool,
    heights: &[usize],
    count: usize,
    columns: usize,
) -> Result<Vec<usize>, NoMemory>
    requires whole { count * columns ≡ length heights.now }
    requires few { length heights.now ≤ 4194304 }
    ensures { IfOk result (λ v. v.items ≡ map greatest (pieces count columns heights.now)) }
{
    let mut highest = pool.fresh(count)?;
    for k in 0..count {
        let from = k * columns;
        let height = greatest(&heights[from..from + columns]);
        let Ok(()) = highest.push(height) else {
            return Err(NoMemory);
        };
    }
    Ok(highest)
}

/// The size of a noun without boxes.
fn measure_lines(pool: &mut Pool, axes: &[usize], atoms: View<'_>) -> Result<Size, NoMemory>
    requires not_boxed { kind_viewed atoms ≢ Boxed }
    requires some { 0 < length (viewed atoms) }
    requires few { length (viewed atoms) ≤ 4194304 }
    requires many { length (viewed atoms) ≡ product axes.now }
    requires rank { length axes.now ≤ 32 }
    ensures { IfOk result (λ s. IsSize s (lines_stacked (kind_viewed atoms.entry) (line_frame axes.now) (line_length axes.now) (viewed atoms.entry))) }
{
    let all = arrange(axes, view_len(atoms));
    let widths = line_widths(pool, atoms, all.count, all.columns)?;
    let lines = Lines {
        atoms,
        columns: all.columns,
        widths: &widths,
    };
    let width = line_size(lines, all.count);
    let height = stacked_bytes(all.frame, 1);
    pool.give_back_bytes(widths);
    Ok(Size { width, height })
}

/// The size of a noun without atoms.
fn measure_no_atoms(axes: &[usize]) -> Size
    ensures { IsSize result (rows_without_atoms axes.now) }
{
    if axes.len() == 1 {
        return Size {
            width: 0,
            height: 1,
        };
    }
    Size {
        width: 0,
        height: 0,
    }
}

/// How wide and how high the contents of boxes are.
#[derive(Drop)]
struct Measured {
    widths: Vec<usize>,
    heights: Vec<usize>,
}

/// Measures the contents of boxes, and puts what is found in them behind the sizes that are there.
#[cycle(measure)]
fn measure_contents(
    pool: &mut Pool,
    contents: &[Noun],
    sizes: &mut Vec<usize>,
) -> Result<Measured, NoMemory>
    ensures widths { IfOk result (λ m. m.widths.items ≡ map (λ y. width_of (noun_rows y)) contents.now) }
    ensures heights { IfOk result (λ m. m.heights.items ≡ map (λ y. length (noun_rows y)) contents.now) }
    ensures sizes { OnOk result (sizes.new.items ≡ sizes.old.items ++ flat_map noun_sizes contents.now) }
{
    let mut widths = pool.fresh(contents.len())?;
    let mut heights = pool.fresh(contents.len())?;
    for content in contents {
        let size = measure(pool, content, sizes)?;
        let Ok(()) = widths.push(size.width) else {
            return Err(NoMemory);
        };
        let Ok(()) = heights.push(size.height) else {
            return Err(NoMemory);
        };
    }
    Ok(Measured { widths, heights })
}

/// Measures a noun. The widths of its columns and the heights of its lines, where it has boxes, go behind the sizes that are there, and then those of what is in them.
#[cycle(measure)]
pub fn measure(pool: &mut Pool, y: &Noun, sizes: &mut Vec<usize>) -> Result<Size, NoMemory>
    ensures size { IfOk result (λ s. IsSize s (noun_rows y.now)) }
    ensures sizes { OnOk result (sizes.new.items ≡ sizes.old.items ++ noun_sizes y.now) }
{
    let atoms = y.view();
    if view_len(atoms) == 0 {
        return Ok(measure_no_atoms(y.axes()));
    }
    match atoms {
        View::Boxes(contents) => {
            let start = reserve_sizes(y.axes(), contents, sizes)?;
            let measured = measure_contents(pool, contents, sizes)?;
            write_sizes(pool, y.axes(), contents, &measured, start, sizes)
        }
        View::Wholes(_) | View::Bits(_) | View::Bytes(_) => measure_lines(pool, y.axes(), atoms),
    }
}

/// Makes room for the sizes of boxes.
fn reserve_sizes(
    axes: &[usize],
    contents: &[Noun],
    sizes: &mut Vec<usize>,
) -> Result<usize, NoMemory>
    requires some { 0 < length contents.now }
    requires few { length contents.now ≤ 4194304 }
    requires many { length contents.now ≡ product axes.now }
    requires rank { length axes.now ≤ 32 }
    ensures start { IfOk result (λ n. n ≡ length sizes.old.items) }
    ensures sizes { OnOk result (sizes.new.items ≡ sizes.old.items ++ replicate (line_length axes.now + product (line_frame axes.now)) 0) }
{
    let all = arrange(axes, contents.len());
    let start = sizes.len();
    let end = plus(start, all.columns + all.count)?;
    let Ok(()) = sizes.resize(end, 0) else {
        return Err(NoMemory);
    };
    Ok(start)
}

/// Writes numbers over others, from a place on.
fn put(into: &mut [usize], from: usize, values: &[usize])
    requires { from + length values.now ≤ length into.old }
    ensures { into.new ≡ take from into.old ++ (values.now ++ drop (from + length values.now) into.old) }
{
    into[from..from + values.len()].copy_from_slice(values);
}

/// Writes the sizes of boxes into their room.
fn write_sizes(
    pool: &mut Pool,
    axes: &[usize],
    contents: &[Noun],
    measured: &Measured,
    start: usize,
    sizes: &mut [usize],
) -> Result<Size, NoMemory>
    requires some { 0 < length contents.now }
    requires few { length contents.now ≤ 4194304 }
    requires many { length contents.now ≡ product axes.now }
    requires rank { length axes.now ≤ 32 }
    requires widths { measured.now.widths.items ≡ map (λ y. width_of (noun_rows y)) contents.now }
    requires heights { measured.now.heights.items ≡ map (λ y. length (noun_rows y)) contents.now }
    requires room { start + (line_length axes.now + product (line_frame axes.now)) ≤ length sizes.old }
    ensures size { IfOk result (λ s. IsSize s (box_rows axes.now (map noun_rows contents.now))) }
    ensures sizes { OnOk result (sizes.new ≡ take start sizes.old ++ (own_sizes axes.now (map noun_rows contents.now) ++ drop (start + (line_length axes.now + product (line_frame axes.now))) sizes.old)) }
{
    let all = arrange(axes, contents.len());
    let widths = widest_columns(pool, &measured.widths, all.count, all.columns)?;
    let heights = highest_lines(pool, &measured.heights, all.count, all.columns)?;
    let width = row_length(&widths)?;
    let height = grid_height(all.frame, &heights)?;
    put(sizes, start, &widths);
    put(sizes, start + all.columns, &heights);
    Ok(Size { width, height })
}
