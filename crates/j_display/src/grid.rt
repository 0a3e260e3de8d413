// How many rows and bytes boxes take that stand in lines and tables.
ghost use Rattle.std.specs.Prelude.{◌≡◌, ◌+◌, ◌*◌, ◌<◌, ◌≤◌, length, IfOk};
ghost use Rattle.j_definitions.specs.Array.{product};
ghost use Rattle.j_display.specs.Rows.{turned, gap, rules_above};
ghost use Rattle.j_display.specs.Sizes.{row_bytes};
ghost use Rattle.j_display.specs.Measured.{grid_height, grid_bytes};

use j_noun::NoMemory;

/// A sum, where memory could hold as much. No noun within the limit of weight has sizes for which it couldn't.
pub fn plus(a: usize, b: usize) -> Result<usize, NoMemory>
    ensures { IfOk result (λ n. n ≡ a + b) }
{
    match a.checked_add(b) {
        Some(n) => Ok(n),
        None => Err(NoMemory),
    }
}

/// A product, where memory could hold as much.
fn times(a: usize, b: usize) -> Result<usize, NoMemory>
    ensures { IfOk result (λ n. n ≡ a * b) }
{
    match a.checked_mul(b) {
        Some(n) => Ok(n),
        None => Err(NoMemory),
    }
}

/// How many axes turn before a line, and how many lines there are.
#[derive(Clone, Copy)]
struct Turns {
    axes: usize,
    lines: usize,
}

/// How many axes of a frame turn to their next place or begin again before line k.
fn turned(frame: &[usize], k: usize) -> Turns
    requires some { 0 < product frame.now }
    requires few { product frame.now ≤ 4194304 }
    requires rank { length frame.now ≤ 32 }
    ensures axes { result.axes ≡ turned frame.now k }
    ensures rank { result.axes ≤ length frame.now }
    ensures lines { result.lines ≡ product frame.now }
{
    let Some((n, item)) = frame.split_first() else {
        return Turns { axes: 0, lines: 1 };
    };
    let inner = turned(item, k);
    let lines = *n * inner.lines;
    if k % inner.lines == 0 {
        return Turns {
            axes: inner.axes + 1,
            lines,
        };
    }
    Turns {
        axes: inner.axes,
        lines,
    }
}

/// How many empty rows and rules stand above a line.
#[derive(Clone, Copy)]
pub struct Above {
    pub gap: usize,
    pub rules: usize,
}

pub fn what_stands_above(frame: &[usize], k: usize) -> Above
    requires some { 0 < product frame.now }
    requires few { product frame.now ≤ 4194304 }
    requires rank { length frame.now ≤ 32 }
    ensures gap { result.gap ≡ gap frame.now k }
    ensures rules { result.rules ≡ rules_above frame.now k }
    ensures few_gaps { result.gap ≤ 32 }
    ensures few_rules { result.rules ≤ 1 }
{
    if k == 0 {
        return Above { gap: 0, rules: 1 };
    }
    let gap = turned(frame, k).axes.saturating_sub(1);
    if gap == 0 {
        return Above { gap, rules: 0 };
    }
    Above { gap, rules: 1 }
}

/// How long a row of a grid is, by the widths of its columns.
pub fn row_length(widths: &[usize]) -> Result<usize, NoMemory>
    ensures { IfOk result (λ n. n ≡ row_bytes widths.now + 1) }
{
    let mut total = 1;
    for width in widths {
        let parted = plus(*width, 1)?;
        total = plus(total, parted)?;
    }
    Ok(total)
}

/// How many rows the lines of a grid take.
pub fn grid_height(frame: &[usize], heights: &[usize]) -> Result<usize, NoMemory>
    requires some { 0 < product frame.now }
    requires few { product frame.now ≤ 4194304 }
    requires rank { length frame.now ≤ 32 }
    ensures { IfOk result (λ n. n ≡ grid_height frame.now heights.now (length heights.now)) }
{
    let mut total = 0;
    for k in 0..heights.len() {
        let above = what_stands_above(frame, k);
        let ruled = plus(heights[k], 1)?;
        let rows = plus(above.rules, ruled)?;
        let all = plus(above.gap, rows)?;
        total = plus(total, all)?;
    }
    Ok(total)
}

/// How many bytes the lines of a grid take, where a row has so many with its line feed.
pub fn grid_bytes(frame: &[usize], heights: &[usize], row: usize) -> Result<usize, NoMemory>
    requires some { 0 < product frame.now }
    requires few { product frame.now ≤ 4194304 }
    requires rank { length frame.now ≤ 32 }
    ensures { IfOk result (λ n. n ≡ grid_bytes frame.now heights.now row (length heights.now)) }
{
    let mut total = 0;
    for k in 0..heights.len() {
        let above = what_stands_above(frame, k);
        let ruled = plus(heights[k], 1)?;
        let rows = plus(above.rules, ruled)?;
        let bytes = times(rows, row)?;
        let all = plus(above.gap, bytes)?;
        total = plus(total, all)?;
    }
    Ok(total)
}
