// The lines of nouns in boxes.
ghost use Rattle.std.specs.Prelude.{◌≡◌, ◌≢◌, ◌+◌, ◌*◌, ◌≤◌, ◌<◌, ℕ, length, map, OnOk, IfOk};
ghost use Rattle.std.specs.List.{range_with_len};
ghost use Rattle.j_definitions.specs.Array.{product};
ghost use Rattle.j_definitions.specs.declared.Kind.TheVariants.{Number, Boxed};
ghost use Rattle.j_noun.specs.Viewed.{viewed, kind_viewed};
ghost use Rattle.j_display.specs.Rows.{pieces, padded, line_frame, line_length, rows_without_atoms, lines_stacked};
ghost use Rattle.j_display.specs.Lines.{HasLines, AreWidths, row_at, rows_from};
ghost use Rattle.j_display.specs.Blocks.{extended};

use crate::arranged::arrange;
use crate::canvas::Canvas;
use crate::columns::column_widths;
use crate::display::view_len;
use crate::grid::plus;
use crate::lines::{Lines, between};
use crate::sizes::row_bytes;
use j_noun::{NoMemory, Pool, View};

/// How wide the columns of numbers are; characters have none.
pub fn line_widths(
    pool: &mut Pool,
    atoms: View<'_>,
    count: usize,
    columns: usize,
) -> Result<Vec<u8>, NoMemory>
    requires not_boxed { kind_viewed atoms ≢ Boxed }
    requires whole { count * columns ≡ length (viewed atoms) }
    requires few { length (viewed atoms) ≤ 4194304 }
    ensures { IfOk result (λ v. AreWidths (kind_viewed atoms.entry) columns (pieces count columns (viewed atoms.entry)) v.items) }
{
    match atoms {
        View::Bytes(_) => pool.bytes(0),
        View::Boxes(_) => unreachable!(),
        View::Wholes(_) | View::Bits(_) => column_widths(pool, atoms, count, columns),
    }
}

/// How long the rows of numbers are.
fn number_line_size(lines: Lines<'_>, count: usize) -> usize
    requires kind { kind_viewed lines.atoms ≡ Number }
    requires column { 0 < lines.columns }
    requires whole { count * lines.columns ≡ length (viewed lines.atoms) }
    requires narrow { lines.columns ≤ 4194304 }
    requires widths { AreWidths (kind_viewed lines.atoms) lines.columns (pieces count lines.columns (viewed lines.atoms)) lines.widths.now }
    ensures { (k : ℕ) → k < count → length (row_at lines.entry k) ≡ result }
{
    row_bytes(lines.widths).saturating_sub(1)
}

/// How long the rows of lines are.
pub fn line_size(lines: Lines<'_>, count: usize) -> usize
    requires not_boxed { kind_viewed lines.atoms ≢ Boxed }
    requires some { 0 < count }
    requires column { 0 < lines.columns }
    requires whole { count * lines.columns ≡ length (viewed lines.atoms) }
    requires few { length (viewed lines.atoms) ≤ 4194304 }
    requires narrow { lines.columns ≤ 4194304 }
    requires widths { AreWidths (kind_viewed lines.atoms) lines.columns (pieces count lines.columns (viewed lines.atoms)) lines.widths.now }
    ensures { (k : ℕ) → k < count → length (row_at lines.entry k) ≡ result }
{
    match lines.atoms {
        View::Bytes(_) => lines.columns,
        View::Boxes(_) => unreachable!(),
        View::Wholes(_) | View::Bits(_) => number_line_size(lines, count),
    }
}

/// A line, and the row where it goes.
#[derive(Clone, Copy)]
pub struct Place {
    pub line: usize,
    pub row: usize,
}

/// Paints the lines that a frame arranges, each with blanks up to a width, and gives the place after them.
fn paint_lines(
    frame: &[usize],
    lines: Lines<'_>,
    size: usize,
    width: usize,
    from: Place,
    canvas: &mut Canvas,
) -> Result<Place, NoMemory>
    requires lines { HasLines lines (from.line + product frame.now) }
    requires size { (k : ℕ) → k < from.line + product frame.now → length (row_at lines k) ≡ size }
    ensures line { IfOk result (λ p. p.line ≡ from.line + product frame.now) }
    ensures row { IfOk result (λ p. p.row ≡ from.row + length (rows_from frame.now lines.entry from.line)) }
    ensures canvas { OnOk result (canvas.new ≡ extended canvas.old from.row (map (padded width) (rows_from frame.now lines.entry from.line))) }
{
    let Some((n, item)) = frame.split_first() else {
        canvas.append_line(from.row, lines, from.line, size, width)?;
        let row = plus(from.row, 1)?;
        return Ok(Place {
            line: from.line + 1,
            row,
        });
    };
    let mut next = from;
    for k in 0..*n {
        let gap = between(k, item.len());
        let row = plus(next.row, gap)?;
        canvas.append_to_each(next.row, gap, b' ', width)?;
        let place = Place {
            line: next.line,
            row,
        };
        next = paint_lines(item, lines, size, width, place, canvas)?;
    }
    Ok(next)
}

/// Paints a noun without boxes, with blanks up to a width, and gives the row after it.
pub fn paint_leaf(
    pool: &mut Pool,
    axes: &[usize],
    atoms: View<'_>,
    width: usize,
    row: usize,
    canvas: &mut Canvas,
) -> Result<usize, NoMemory>
    requires not_boxed { kind_viewed atoms ≢ Boxed }
    requires some { 0 < length (viewed atoms) }
    requires few { length (viewed atoms) ≤ 4194304 }
    requires many { length (viewed atoms) ≡ product axes.now }
    requires rank { length axes.now ≤ 32 }
    ensures row { IfOk result (λ n. n ≡ row + length (lines_stacked (kind_viewed atoms.entry) (line_frame axes.now) (line_length axes.now) (viewed atoms.entry))) }
    ensures canvas { OnOk result (canvas.new ≡ extended canvas.old row (map (padded width) (lines_stacked (kind_viewed atoms.entry) (line_frame axes.now) (line_length axes.now) (viewed atoms.entry)))) }
{
    let all = arrange(axes, view_len(atoms));
    let widths = line_widths(pool, atoms, all.count, all.columns)?;
    let lines = Lines {
        atoms,
        columns: all.columns,
        widths: &widths,
    };
    let size = line_size(lines, all.count);
    let end = paint_lines(
        all.frame,
        lines,
        size,
        width,
        Place { line: 0, row },
        canvas,
    )?;
    pool.give_back_bytes(widths);
    Ok(end.row)
}

/// Paints a noun without atoms, and gives the row after it.
pub fn paint_no_atoms(
    axes: &[usize],
    width: usize,
    row: usize,
    canvas: &mut Canvas,
) -> Result<usize, NoMemory>
    ensures row { IfOk result (λ n. n ≡ row + length (rows_without_atoms axes.now)) }
    ensures canvas { OnOk result (canvas.new ≡ extended canvas.old row (map (padded width) (rows_without_atoms axes.now))) }
{
    if axes.len() != 1 {
        return Ok(row);
    }
    let end = plus(row, 1)?;
    canvas.append_copies(row, b' ', width)?;
    Ok(end)
}
