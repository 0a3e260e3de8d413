// Rows that grow to the right.
ghost use Rattle.std.specs.Prelude.{◌≡◌, ◌+◌, ◌^◌, ◌<◌, ◌≤◌, [], ◌∷◌, ◌++◌, length, get_or, replicate, vec_len, vec_capacity, OnOk, IfOk};
ghost use Rattle.j_display.specs.Blocks.{extended, rows_within, HaveRoom};
ghost use Rattle.j_display.specs.Lines.{HasLines, row_at};
ghost use Rattle.j_display.specs.Rows.{padded, joined};

use crate::lines::{Lines, append, append_row};
use j_noun::{NoMemory, Pool};
use std::marker::Model;

/// Rows that grow to the right, each with room for as many bytes. What is appended to a row past the last is lost.
#[derive(Drop)]
pub struct Canvas {
    // the room of all rows, one behind the other, and how much of it each row has taken
    bytes: Vec<u8>,
    lengths: Vec<usize>,
    room: usize,
    // a text before it stands in its row
    text: Vec<u8>,
}

impl Model for Canvas {
    ghost use Rattle.std.specs.Prelude.{ℕ, List};
    ghost use Rattle.j_display.specs.Blocks.{rows_within, HaveRoom};

    ghost Value = { List (List ℕ) };

    ghost view = { λ c. rows_within c.room c.lengths.items c.bytes.items };

    ghost invariant = { λ c. HaveRoom c.room c.lengths.items c.bytes.items };
}

/// Writes a text behind what stands in a row.
fn write(
    bytes: &mut [u8],
    lengths: &mut [usize],
    room: usize,
    row: usize,
    text: &[u8],
) -> Result<(), NoMemory>
    requires room { HaveRoom room lengths.old bytes.old }
    ensures room { HaveRoom room lengths.new bytes.new }
    ensures rows { OnOk result (rows_within room lengths.new bytes.new ≡ extended (rows_within room lengths.old bytes.old) row (text.now ∷ [])) }
{
    if row >= lengths.len() {
        return Ok(());
    }
    let length = lengths[row];
    if text.len() > room - length {
        return Err(NoMemory);
    }
    let from = row * room + length;
    bytes[from..from + text.len()].copy_from_slice(text);
    lengths[row] = length + text.len();
    Ok(())
}

/// What stands in a row.
#[tactic(auto, using(crate::proofs::Rooms::row_there))]
fn text_of<'a>(bytes: &'a [u8], lengths: &[usize], room: usize, row: usize) -> &'a [u8]
    requires room { HaveRoom room lengths.now bytes.now }
    requires row { row < length lengths.now }
    ensures { result.now ≡ get_or (rows_within room lengths.now bytes.now) row [] }
{
    let from = row * room;
    let length = lengths[row];
    &bytes[from..from + length]
}

impl Canvas {
    /// So many empty rows, each with room for so many bytes.
    pub fn new(pool: &mut Pool, height: usize, room: usize) -> Result<Canvas, NoMemory>
        ensures { IfOk result (λ c. c ≡ replicate height []) }
    {
        let Some(size) = height.checked_mul(room) else {
            return Err(NoMemory);
        };
        let mut bytes = pool.bytes(size)?;
        let Ok(()) = bytes.resize(size, 0) else {
            return Err(NoMemory);
        };
        let mut lengths = pool.fresh(height)?;
        let Ok(()) = lengths.resize(height, 0) else {
            return Err(NoMemory);
        };
        let text = pool.bytes(0)?;
        Ok(Canvas {
            bytes,
            lengths,
            room,
            text,
        })
    }

    /// How many rows there are.
    fn height(&self) -> usize
        ensures { result ≡ length self.now }
    {
        self.lengths.len()
    }

    /// What stands in a row.
    fn row(&self, row: usize) -> &[u8]
        requires { row < length self.now }
        ensures { result.now ≡ get_or self.now row [] }
    {
        text_of(&self.bytes, &self.lengths, self.room, row)
    }

    /// Appends bytes to a row.
    pub fn append(&mut self, row: usize, text: &[u8]) -> Result<(), NoMemory>
        ensures { OnOk result (self.new ≡ extended self.old row (text.now ∷ [])) }
    {
        write(&mut self.bytes, &mut self.lengths, self.room, row, text)
    }

    /// Appends copies of a byte to a row.
    pub fn append_copies(&mut self, row: usize, byte: u8, count: usize) -> Result<(), NoMemory>
        ensures { OnOk result (self.new ≡ extended self.old row (replicate count byte ∷ [])) }
    {
        if count == 0 {
            return Ok(());
        }
        self.text.clear();
        let Ok(()) = self.text.resize(count, byte) else {
            return Err(NoMemory);
        };
        write(
            &mut self.bytes,
            &mut self.lengths,
            self.room,
            row,
            &self.text,
        )
    }

    /// Appends copies of a byte to each of some rows.
    pub fn append_to_each(
        &mut self,
        row: usize,
        height: usize,
        byte: u8,
        count: usize,
    ) -> Result<(), NoMemory>
        requires { row + height < 2 ^ 64 }
        ensures { OnOk result (self.new ≡ extended self.old row (replicate height (replicate count byte))) }
    {
        for r in 0..height {
            self.append_copies(row + r, byte, count)?;
        }
        Ok(())
    }

    /// Appends the row of line k.
    fn append_bare_line(
        &mut self,
        row: usize,
        lines: Lines<'_>,
        k: usize,
        size: usize,
    ) -> Result<(), NoMemory>
        requires line { HasLines lines (k + 1) }
        requires size { length (row_at lines k) ≤ size }
        ensures { OnOk result (self.new ≡ extended self.old row (row_at lines.entry k ∷ [])) }
    {
        self.text.clear();
        let Ok(()) = self.text.reserve(size) else {
            return Err(NoMemory);
        };
        append_row(lines, k, &mut self.text);
        write(
            &mut self.bytes,
            &mut self.lengths,
            self.room,
            row,
            &self.text,
        )
    }

    /// Appends the row of line k, and blanks up to a width.
    pub fn append_line(
        &mut self,
        row: usize,
        lines: Lines<'_>,
        k: usize,
        size: usize,
        width: usize,
    ) -> Result<(), NoMemory>
        requires line { HasLines lines (k + 1) }
        requires size { length (row_at lines k) ≡ size }
        ensures { OnOk result (self.new ≡ extended self.old row (padded width (row_at lines.entry k) ∷ [])) }
    {
        self.append_bare_line(row, lines, k, size)?;
        self.append_copies(row, b' ', width.saturating_sub(size))?;
        Ok(())
    }

    /// Appends all rows, each with a line feed.
    pub fn append_to(&self, into: &mut Vec<u8>)
        requires room { vec_len into.old + length (joined self.now) ≤ vec_capacity into.old }
        ensures { into.new.items ≡ into.old.items ++ joined self.now }
    {
        for r in 0..self.height() {
            append(into, self.row(r));
            into.push_reserved(b'\n');
        }
    }
}
