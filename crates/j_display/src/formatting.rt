// A noun as characters.
ghost use Rattle.std.specs.Prelude.{◌≡◌, ◌+◌, ◌-◌, ◌*◌, ◌≤◌, ◌<◌, ℕ, [], ◌∷◌, ◌++◌, length, map, IfOk, OnOk, vec_len, vec_capacity};
ghost use Rattle.std.specs.List.{flat_map, range_with_len};
ghost use Rattle.j_definitions.specs.Array.{byte, product};
ghost use Rattle.j_definitions.specs.Limits.{limited};
ghost use Rattle.j_definitions.specs.declared.Kind.TheVariants.{Number};
ghost use Rattle.j_noun.specs.Viewed.{viewed, kind_viewed};
ghost use Rattle.j_noun.specs.Refused.{OrWanting};
ghost use Rattle.j_display.specs.Lines.{HasLines, row_at};
ghost use Rattle.j_display.specs.Formatted.{formatted, number_rows, row_characters};

use crate::arranged::arrange;
use crate::columns::column_widths;
use crate::display::view_len;
use crate::lines::{Lines, append_row};
use crate::sizes::row_bytes;
use j_noun::{Atoms, Fault, Noun, Pool, Refusal, Shape, View};

const LIMIT: usize = 4_194_304;

/// Appends the rows of so many lines, one behind the other.
fn append_rows(lines: Lines<'_>, count: usize, size: usize, into: &mut Vec<u8>)
    requires lines { HasLines lines count }
    requires size { (k : ℕ) → k < count → length (row_at lines k) ≡ size }
    requires room { vec_len into.old + count * size ≤ vec_capacity into.old }
    ensures { into.new.items ≡ into.old.items ++ flat_map (row_at lines.entry) (range_with_len 0 count) }
{
    for k in 0..count {
        append_row(lines, k, into);
    }
}

/// The shape of a frame and a last axis.
fn shape_with(frame: &[usize], last: usize) -> Shape
    requires { length frame.now ≤ 31 }
    ensures { result ≡ frame.now ++ last ∷ [] }
{
    let mut shape = Shape::new();
    for n in frame {
        let Ok(()) = shape.add(*n) else {
            unreachable!()
        };
    }
    let Ok(()) = shape.add(last) else {
        unreachable!()
    };
    shape
}

/// Formats numbers, of which there are none.
fn format_no_numbers(pool: &mut Pool, axes: &[usize]) -> Result<Noun, Refusal>
    requires none { product axes.now ≡ 0 }
    requires rank { length axes.now ≤ 32 }
    ensures { OrWanting (limited (row_characters axes.now (number_rows axes.now []))) result }
{
    let (frame, _) = axes.split_at(axes.len().saturating_sub(1));
    let characters = pool.bytes(0)?;
    Noun::make(pool, shape_with(frame, 0), Atoms::Bytes(characters))
}

/// Formats numbers.
fn format_numbers(pool: &mut Pool, axes: &[usize], atoms: View<'_>) -> Result<Noun, Refusal>
    requires kind { kind_viewed atoms ≡ Number }
    requires some { 0 < length (viewed atoms) }
    requires few { length (viewed atoms) ≤ 4194304 }
    requires many { length (viewed atoms) ≡ product axes.now }
    requires rank { length axes.now ≤ 32 }
    ensures { OrWanting (limited (row_characters axes.now (number_rows axes.now (viewed atoms.entry)))) result }
{
    let all = arrange(axes, view_len(atoms));
    let widths = column_widths(pool, atoms, all.count, all.columns)?;
    let size = row_bytes(&widths).saturating_sub(1);
    if all.count * size > LIMIT {
        return Err(Refusal::Fault(Fault::Limit));
    }
    let mut characters = pool.bytes(all.count * size)?;
    let lines = Lines {
        atoms,
        columns: all.columns,
        widths: &widths,
    };
    append_rows(lines, all.count, size, &mut characters);
    pool.give_back_bytes(widths);
    Noun::make(pool, shape_with(all.frame, size), Atoms::Bytes(characters))
}

/// Formats a noun: characters stay as they are, numbers are the rows of their lines, and boxes are refused.
pub fn format(pool: &mut Pool, y: &Noun) -> Result<Noun, Refusal>
    ensures { OrWanting (formatted y.now) result }
{
    let atoms = y.view();
    match atoms {
        View::Boxes(_) => Err(Refusal::Fault(Fault::Nonce)),
        View::Bytes(_) => match y.duplicate() {
            Ok(same) => Ok(same),
            Err(_) => Err(Refusal::NoMemory),
        },
        View::Wholes(_) | View::Bits(_) => {
            if view_len(atoms) == 0 {
                return format_no_numbers(pool, y.axes());
            }
            format_numbers(pool, y.axes(), atoms)
        }
    }
}
