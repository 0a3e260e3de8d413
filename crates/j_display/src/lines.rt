// How lines are written into a buffer that has room for them.
ghost use Rattle.std.specs.Prelude.{◌≡◌, ◌≢◌, ◌+◌, ◌*◌, ◌≤◌, ◌<◌, ◌∷◌, [], ◌++◌, length, take, drop, replicate, vec_len, vec_capacity};
ghost use Rattle.j_definitions.specs.Array.{product};
ghost use Rattle.j_definitions.specs.declared.Kind.TheVariants.{Number, Boxed};
ghost use Rattle.j_noun.specs.Viewed.{viewed, kind_viewed};
ghost use Rattle.j_numbers.specs.Printed.{printed};
ghost use Rattle.j_display.specs.Rows.{set_right, line_row};
ghost use Rattle.j_display.specs.Lines.{between, row_at, HasLines, shown_lines};

use crate::columns::number_at;
use itoa::Buffer;
use j_noun::View;

/// Lines of one length, and for numbers how wide their columns are.
#[derive(Clone, Copy)]
pub struct Lines<'a> {
    pub atoms: View<'a>,
    pub columns: usize,
    pub widths: &'a [u8],
}

/// Appends bytes.
pub fn append(into: &mut Vec<u8>, bytes: &[u8])
    requires room { vec_len into.old + length bytes.now ≤ vec_capacity into.old }
    ensures items { into.new.items ≡ into.old.items ++ bytes.now }
    ensures capacity { vec_capacity into.old ≤ vec_capacity into.new }
{
    let Ok(()) = into.extend_from_slice(bytes) else {
        unreachable!()
    };
}

/// Appends copies of a byte.
fn append_copies(into: &mut Vec<u8>, byte: u8, count: usize)
    requires room { vec_len into.old + count ≤ vec_capacity into.old }
    ensures items { into.new.items ≡ into.old.items ++ replicate count byte }
    ensures capacity { vec_capacity into.old ≤ vec_capacity into.new }
{
    let Ok(()) = into.resize(into.len() + count, byte) else {
        unreachable!()
    };
}

/// How many stand before piece k, where so many stand between two.
pub fn between(k: usize, count: usize) -> usize
    ensures { result ≡ between k count }
{
    if k > 0 { count } else { 0 }
}

/// Appends a number that stands right in its column.
fn append_number(n: i64, width: u8, into: &mut Vec<u8>)
    requires room { vec_len into.old + length (set_right width (printed n)) ≤ vec_capacity into.old }
    ensures items { into.new.items ≡ into.old.items ++ set_right width (printed n) }
    ensures capacity { vec_capacity into.old ≤ vec_capacity into.new }
{
    let mut buffer = Buffer::new();
    let digits = buffer.format(n.unsigned_abs()).as_bytes();
    if n < 0 {
        append_copies(
            into,
            b' ',
            usize::from(width).saturating_sub(digits.len() + 1),
        );
        into.push_reserved(b'_');
    } else {
        append_copies(into, b' ', usize::from(width).saturating_sub(digits.len()));
    }
    append(into, digits);
}

/// Appends a line of numbers, from a place on.
fn append_numbers(atoms: View<'_>, from: usize, widths: &[u8], into: &mut Vec<u8>)
    requires kind { kind_viewed atoms ≡ Number }
    requires place { from + length widths.now ≤ length (viewed atoms) }
    requires few { length (viewed atoms) ≤ 4194304 }
    requires room { vec_len into.old + length (line_row Number widths.now (take (length widths.now) (drop from (viewed atoms)))) ≤ vec_capacity into.old }
    ensures items { into.new.items ≡ into.old.items ++ line_row Number widths.now (take (length widths.now) (drop from (viewed atoms.entry))) }
    ensures capacity { vec_capacity into.old ≤ vec_capacity into.new }
{
    for j in 0..widths.len() {
        append_copies(into, b' ', between(j, 1));
        let n = number_at(atoms, from + j);
        append_number(n, widths[j], into);
    }
}

/// Appends the row of line k.
pub fn append_row(lines: Lines<'_>, k: usize, into: &mut Vec<u8>)
    requires line { HasLines lines (k + 1) }
    requires room { vec_len into.old + length (row_at lines k) ≤ vec_capacity into.old }
    ensures items { into.new.items ≡ into.old.items ++ row_at lines.entry k }
    ensures capacity { vec_capacity into.old ≤ vec_capacity into.new }
{
    let from = k * lines.columns;
    match lines.atoms {
        View::Bytes(bytes) => append(into, &bytes[from..from + lines.columns]),
        View::Boxes(_) => unreachable!(),
        atoms => append_numbers(atoms, from, lines.widths, into),
    }
}

/// Appends line k.
fn append_line(lines: Lines<'_>, k: usize, into: &mut Vec<u8>)
    requires line { HasLines lines (k + 1) }
    requires room { vec_len into.old + (length (row_at lines k) + 1) ≤ vec_capacity into.old }
    ensures items { into.new.items ≡ into.old.items ++ (row_at lines.entry k ++ 10 ∷ []) }
    ensures capacity { vec_capacity into.old ≤ vec_capacity into.new }
{
    append_row(lines, k, into);
    into.push_reserved(b'\n');
}

/// Appends the lines that a frame arranges, from one line on, and gives the line after them.
pub fn append_lines(frame: &[usize], lines: Lines<'_>, from: usize, into: &mut Vec<u8>) -> usize
    requires lines { HasLines lines (from + product frame.now) }
    requires room { vec_len into.old + length (shown_lines frame.now lines from) ≤ vec_capacity into.old }
    ensures next { result ≡ from + product frame.now }
    ensures items { into.new.items ≡ into.old.items ++ shown_lines frame.now lines.entry from }
    ensures capacity { vec_capacity into.old ≤ vec_capacity into.new }
{
    let Some((n, item)) = frame.split_first() else {
        append_line(lines, from, into);
        return from + 1;
    };
    let mut next = from;
    for k in 0..*n {
        append_copies(into, b'\n', between(k, item.len()));
        next = append_lines(item, lines, next, into);
    }
    next
}
