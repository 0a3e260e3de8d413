// How values are shown.
ghost use Rattle.std.specs.Prelude.{◌≡◌, ◌≢◌, ◌+◌, ◌*◌, ◌≤◌, ◌<◌, ◌∷◌, [], length, map};
ghost use Rattle.j_definitions.specs.Array.{byte, boxed, product};
ghost use Rattle.j_definitions.specs.declared.Kind.TheVariants.{Number, Character, Boxed};
ghost use Rattle.j_noun.specs.Viewed.{viewed, kind_viewed};
ghost use Rattle.j_display.specs.Rows.{lines_stacked, atoms_rows, content_rows, rows_without_atoms, noun_rows, joined};
ghost use Rattle.j_display.specs.Display.{entity_rows};
ghost use Rattle.j_entity.specs.View.{entity_of};
ghost use Rattle.j_display.specs.Sizes.{stacked_bytes};
ghost use Rattle.j_display.specs.Lines.{HasLines, shown_lines};
ghost use Rattle.j_display.specs.Shown.{IsShown};

use crate::canvas::Canvas;
use crate::columns::column_widths;
use crate::grid::{grid_bytes, plus, row_length};
use crate::lines::{Lines, append, append_lines};
use crate::measure::measure;
use crate::paint::{Spot, grid_at, paint};
use crate::sizes::{row_bytes, stacked_bytes};
use j_entity::Entity;
use j_noun::{Fault, Noun, Pool, Refusal, View};

/// Shows lines that a frame arranges, whose rows take so many bytes each.
fn show_lines(
    frame: &[usize],
    lines: Lines<'_>,
    row: usize,
    room: usize,
    into: &mut Vec<u8>,
) -> Result<(), Refusal>
    requires lines { HasLines lines (product frame.now) }
    requires some { 0 < product frame.now }
    requires rank { length frame.now ≤ 32 }
    requires light { product frame.now * row ≤ 1073741824 }
    requires size { length (shown_lines frame.now lines 0) ≡ stacked_bytes frame.now row }
    ensures { IsShown result (shown_lines frame.now lines.entry 0) room into.old.items into.new.items }
{
    let bytes = stacked_bytes(frame, row);
    if bytes > room {
        return Err(Refusal::Fault(Fault::Limit));
    }
    let Ok(()) = into.reserve(bytes) else {
        return Err(Refusal::NoMemory);
    };
    append_lines(frame, lines, 0, into);
    Ok(())
}

/// Shows characters in lines of one length.
fn show_characters(
    frame: &[usize],
    columns: usize,
    characters: &[u8],
    room: usize,
    into: &mut Vec<u8>,
) -> Result<(), Refusal>
    requires some { 0 < product frame.now }
    requires rank { length frame.now ≤ 32 }
    requires whole { product frame.now * columns ≡ length characters.now }
    requires few { length characters.now ≤ 4194304 }
    requires count { product frame.now ≤ 4194304 }
    ensures { IsShown result (joined (lines_stacked Character frame.now columns (map byte characters.now))) room into.old.items into.new.items }
{
    let atoms = View::Bytes(characters);
    let widths = [];
    let lines = Lines {
        atoms,
        columns,
        widths: &widths,
    };
    show_lines(frame, lines, columns + 1, room, into)
}

/// Shows numbers in lines of one length.
fn show_numbers(
    pool: &mut Pool,
    frame: &[usize],
    columns: usize,
    atoms: View<'_>,
    room: usize,
    into: &mut Vec<u8>,
) -> Result<(), Refusal>
    requires kind { kind_viewed atoms ≡ Number }
    requires some { 0 < product frame.now }
    requires rank { length frame.now ≤ 32 }
    requires column { 0 < columns }
    requires whole { product frame.now * columns ≡ length (viewed atoms) }
    requires few { length (viewed atoms) ≤ 4194304 }
    requires count { product frame.now ≤ 4194304 }
    ensures { IsShown result (joined (lines_stacked Number frame.now columns (viewed atoms.entry))) room into.old.items into.new.items }
{
    let count = view_len(atoms) / columns;
    let widths = column_widths(pool, atoms, count, columns)?;
    let row = row_bytes(&widths);
    let lines = Lines {
        atoms,
        columns,
        widths: &widths,
    };
    let shown = show_lines(frame, lines, row, room, into);
    pool.give_back_bytes(widths);
    shown
}

/// Shows a noun with atoms.
fn show_atoms(
    pool: &mut Pool,
    axes: &[usize],
    atoms: View<'_>,
    room: usize,
    into: &mut Vec<u8>,
) -> Result<(), Refusal>
    requires some { 0 < length (viewed atoms) }
    requires few { length (viewed atoms) ≤ 4194304 }
    requires many { length (viewed atoms) ≡ product axes.now }
    requires rank { length axes.now ≤ 32 }
    requires not_boxed { kind_viewed atoms ≢ Boxed }
    ensures { IsShown result (joined (atoms_rows (kind_viewed atoms.entry) axes.now (viewed atoms.entry) (map content_rows (viewed atoms.entry)))) room into.old.items into.new.items }
{
    let (frame, line) = axes.split_at(axes.len().saturating_sub(1));
    let columns = columns_of(line);
    match atoms {
        View::Bytes(bytes) => show_characters(frame, columns, bytes, room, into),
        View::Boxes(_) => unreachable!(),
        View::Wholes(_) | View::Bits(_) => { show_numbers(pool, frame, columns, atoms, room, into) }
    }
}

/// How many atoms a line has, by the last axis, if there is one.
pub fn columns_of(line: &[usize]) -> usize
    requires { length line.now ≤ 1 }
    ensures { result ≡ product line.now }
{
    match line {
        [n] => *n,
        _ => 1,
    }
}

/// How many atoms there are.
pub fn view_len(atoms: View<'_>) -> usize
    ensures { result ≡ length (viewed atoms.entry) }
{
    match atoms {
        View::Wholes(numbers) => numbers.len(),
        View::Bits(bits) => bits.len(),
        View::Bytes(bytes) => bytes.len(),
        View::Boxes(boxes) => boxes.len(),
    }
}

/// Shows a noun without atoms.
fn show_no_atoms(axes: &[usize], room: usize, into: &mut Vec<u8>) -> Result<(), Refusal>
    ensures { IsShown result (joined (rows_without_atoms axes.now)) room into.old.items into.new.items }
{
    if axes.len() != 1 {
        return Ok(());
    }
    if room == 0 {
        return Err(Refusal::Fault(Fault::Limit));
    }
    match into.push(b'\n') {
        Ok(()) => Ok(()),
        Err(_) => Err(Refusal::NoMemory),
    }
}

/// Shows a noun.
fn show_noun(pool: &mut Pool, y: &Noun, room: usize, into: &mut Vec<u8>) -> Result<(), Refusal>
    ensures { IsShown result (joined (noun_rows y.now)) room into.old.items into.new.items }
{
    let atoms = y.view();
    if view_len(atoms) == 0 {
        return show_no_atoms(y.axes(), room, into);
    }
    match atoms {
        View::Boxes(contents) => show_boxes(pool, y, contents, room, into),
        View::Wholes(_) | View::Bits(_) | View::Bytes(_) => {
            show_atoms(pool, y.axes(), atoms, room, into)
        }
    }
}

/// Shows boxes: what is in them is measured once, and painted once on rows that then are written.
fn show_boxes(
    pool: &mut Pool,
    y: &Noun,
    contents: &[Noun],
    room: usize,
    into: &mut Vec<u8>,
) -> Result<(), Refusal>
    requires kind { y.now.kind ≡ Boxed }
    requires atoms { y.now.atoms ≡ map boxed contents.now }
    requires some { 0 < length contents.now }
    requires few { length contents.now ≤ 4194304 }
    requires many { length contents.now ≡ product y.now.shape }
    requires rank { length y.now.shape ≤ 32 }
    ensures { IsShown result (joined (noun_rows y.now)) room into.old.items into.new.items }
{
    let mut sizes = Vec::new(pool.alloc());
    let size = measure(pool, y, &mut sizes)?;
    let grid = grid_at(y.axes(), contents, &sizes, 0);
    let long = row_length(grid.widths)?;
    let row = plus(long, 1)?;
    let bytes = grid_bytes(grid.frame, grid.heights, row)?;
    if room < bytes {
        return Err(Refusal::Fault(Fault::Limit));
    }
    let mut canvas = Canvas::new(pool, size.height, long)?;
    paint(pool, y, &sizes, Spot { next: 0, row: 0 }, 0, &mut canvas)?;
    let Ok(()) = into.reserve(bytes) else {
        return Err(Refusal::NoMemory);
    };
    canvas.append_to(into);
    Ok(())
}

/// Shows a row that is a word.
fn show_word(word: &[u8], room: usize, into: &mut Vec<u8>) -> Result<(), Refusal>
    requires { length word.now ≤ 11 }
    ensures { IsShown result (joined (word.now ∷ [])) room into.old.items into.new.items }
{
    if word.len() + 1 > room {
        return Err(Refusal::Fault(Fault::Limit));
    }
    let Ok(()) = into.reserve(word.len() + 1) else {
        return Err(Refusal::NoMemory);
    };
    append(into, word);
    into.push_reserved(b'\n');
    Ok(())
}

/// Appends the rows of a value, each with a line feed, where they have at most `room` bytes.
pub fn show(pool: &mut Pool, e: &Entity, room: usize, into: &mut Vec<u8>) -> Result<(), Refusal>
    ensures { IsShown result (joined (entity_rows (entity_of e.now))) room into.old.items into.new.items }
{
    match e {
        Entity::Noun(y) => show_noun(pool, y, room, into),
        Entity::Verb(_) => show_word(b"verb", room, into),
        Entity::Adverb(_) => show_word(b"adverb", room, into),
        Entity::Conjunction(_) => show_word(b"conjunction", room, into),
    }
}
