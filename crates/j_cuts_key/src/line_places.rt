// The items of an oblique line.
ghost use Rattle.std.specs.Prelude.{◌≡◌, ◌<◌, ◌≤◌, ◌*◌, IfOk};
ghost use Rattle.std.specs.List.{All};
ghost use Rattle.j_cuts_key.specs.Obliques.{rows, columns, line, line_count};

use j_noun::{NoMemory, Noun, Pool};

/// How many rows there are.
pub fn rows(y: &Noun) -> usize
    ensures value { result ≡ rows y.now.shape }
    ensures few { result ≤ 4194304 }
{
    let _ = y.view();
    y.tally()
}

/// How many columns there are; a list is one column, an atom 1 by 1.
pub fn columns(y: &Noun) -> usize
    ensures value { result ≡ columns y.now.shape }
    ensures few { result ≤ 4194304 }
{
    let _ = y.view();
    match y.axes() {
        [] => 1,
        [_] => 1,
        [_, count, ..] => *count,
    }
}

/// How many oblique lines there are.
pub fn line_count(rows: usize, columns: usize) -> usize
    requires rows { rows ≤ 4194304 }
    requires columns { columns ≤ 4194304 }
    ensures { result ≡ line_count rows columns }
{
    if rows == 0 || columns == 0 {
        return 0;
    }
    rows + columns - 1
}

/// The places on line n, rows ascending.
pub fn line(pool: &mut Pool, rows: usize, columns: usize, n: usize) -> Result<Vec<usize>, NoMemory>
    requires rows { rows ≤ 4194304 }
    requires columns { columns ≤ 4194304 }
    requires place { n < line_count rows columns }
    ensures places { IfOk result (λ v. v.items ≡ line rows columns n) }
    ensures within { IfOk result (λ v. All (λ k. k < rows * columns) v.items) }
{
    let first = (n + 1).saturating_sub(columns);
    let end = rows.min(n + 1);
    let mut places = pool.fresh(end - first)?;
    for row in first..end {
        let Ok(()) = places.push(row * columns + (n - row)) else {
            return Err(NoMemory);
        };
    }
    Ok(places)
}
