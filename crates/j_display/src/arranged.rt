// How the atoms of a noun stand in lines.
ghost use Rattle.std.specs.Prelude.{◌≡◌, ◌*◌, ◌≤◌, ◌<◌, length};
ghost use Rattle.j_definitions.specs.Array.{product};
ghost use Rattle.j_display.specs.Rows.{line_frame, line_length};

use crate::display::columns_of;

/// The axes that lines stand in, how many atoms each line has and how many lines there are.
#[derive(Clone, Copy)]
pub struct Arranged<'a> {
    pub frame: &'a [usize],
    pub columns: usize,
    pub count: usize,
}

/// The lines of a noun with so many atoms.
pub fn arrange(axes: &[usize], atoms: usize) -> Arranged<'_>
    requires some { 0 < atoms }
    requires few { atoms ≤ 4194304 }
    requires many { atoms ≡ product axes.now }
    requires rank { length axes.now ≤ 32 }
    ensures frame { result.frame.now ≡ line_frame axes.now }
    ensures columns { result.columns ≡ line_length axes.now }
    ensures lines { result.count ≡ product (line_frame axes.now) }
    ensures count { product result.frame.now ≡ result.count }
    ensures whole { result.count * result.columns ≡ atoms }
    ensures some { 0 < result.count }
    ensures column { 0 < result.columns }
    ensures few { result.count ≤ 4194304 }
    ensures narrow { result.columns ≤ 4194304 }
    ensures rank { length result.frame.now ≤ 32 }
{
    let (frame, line) = axes.split_at(axes.len().saturating_sub(1));
    let columns = columns_of(line);
    Arranged {
        frame,
        columns,
        count: atoms / columns,
    }
}
