// How wide the columns of numbers are.
ghost use Rattle.std.specs.Prelude.{◌≡◌, ◌+◌, ◌*◌, ◌≤◌, ◌<◌, length, take, drop, max, IfOk};
ghost use Rattle.std.specs.List.{sum_by};
ghost use Rattle.j_definitions.specs.Array.{number};
ghost use Rattle.j_definitions.specs.Cells.{atom_at};
ghost use Rattle.j_definitions.specs.declared.Kind.TheVariants.{Number};
ghost use Rattle.j_noun.specs.Viewed.{viewed, kind_viewed};
ghost use Rattle.j_numbers.specs.Printed.{printed};
ghost use Rattle.j_display.specs.Rows.{pieces, wider, text_widths, column_widths};

use itoa::Buffer;
use j_noun::{NoMemory, Pool, View};

/// The number at a place.
pub fn number_at(atoms: View<'_>, i: usize) -> i64
    requires kind { kind_viewed atoms ≡ Number }
    requires place { i < length (viewed atoms) }
    ensures { atom_at (viewed atoms.entry) i ≡ number result }
{
    match atoms {
        View::Wholes(numbers) => numbers[i],
        View::Bits(bits) => i64::from(bits[i]),
        View::Bytes(_) | View::Boxes(_) => unreachable!(),
    }
}

/// How many bytes a number takes.
fn printed_length(n: i64) -> u8
    ensures { result ≡ length (printed n) }
{
    let mut buffer = Buffer::new();
    let digits = buffer.format(n.unsigned_abs()).len();
    let length = if n < 0 { digits + 1 } else { digits };
    length as u8
}

fn greater(a: u8, b: u8) -> u8
    ensures { result ≡ max a b }
{
    if a < b { b } else { a }
}

/// Makes columns as wide as the numbers from a place on need.
fn widen(widths: &mut [u8], atoms: View<'_>, from: usize)
    requires kind { kind_viewed atoms ≡ Number }
    requires place { from + length widths.old ≤ length (viewed atoms) }
    requires few { length (viewed atoms) ≤ 4194304 }
    ensures { widths.new ≡ wider widths.old (text_widths (take (length widths.old) (drop from (viewed atoms.entry)))) }
{
    for j in 0..widths.len() {
        let width = printed_length(number_at(atoms, from + j));
        let wide = greater(widths[j], width);
        widths[j] = wide;
    }
}

/// How wide each column is, for numbers in lines of one length.
pub fn column_widths(
    pool: &mut Pool,
    atoms: View<'_>,
    count: usize,
    columns: usize,
) -> Result<Vec<u8>, NoMemory>
    requires kind { kind_viewed atoms ≡ Number }
    requires whole { count * columns ≡ length (viewed atoms) }
    requires few { length (viewed atoms) ≤ 4194304 }
    ensures { IfOk result (λ v. v.items ≡ column_widths columns (pieces count columns (viewed atoms.entry))) }
{
    let mut widths = pool.bytes(columns)?;
    let Ok(()) = widths.resize(columns, 0) else {
        return Err(NoMemory);
    };
    for k in 0..count {
        widen(&mut widths, atoms, k * columns);
    }
    Ok(widths)
}
