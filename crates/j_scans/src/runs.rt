// The runs of infixes and outfixes.
ghost use Rattle.std.specs.Prelude.{◌≡◌, ◌<◌, ◌≤◌, ◌+◌, min};
ghost use Rattle.j_scans.specs.Scans.{run_count, run_at};
ghost use Rattle.j_scans.specs.Spans.{IsSpan};

use crate::copying::Span;

// How many items a run has at most.
fn run_size(n: i64) -> usize
    ensures { result ≡ (run_at n 0).count }
{
    n.unsigned_abs() as usize
}

/// How many runs so many items have.
pub fn run_count(n: i64, items: usize) -> usize
    requires { items ≤ 4194304 }
    ensures { result ≡ run_count n items }
{
    let size = run_size(n);
    if n < 0 {
        (items + (size - 1)) / size
    } else {
        (items + 1).saturating_sub(size)
    }
}

// Where run k begins.
fn start_of(n: i64, items: usize, k: usize) -> usize
    requires few { items ≤ 4194304 }
    requires place { k < run_count n items }
    ensures value { result ≡ (run_at n k).start }
    ensures before { result ≤ items }
{
    let size = run_size(n);
    if n < 0 { k * size } else { k }
}

/// From where up to where run k goes.
pub fn run_at(n: i64, items: usize, k: usize) -> Span
    requires few { items ≤ 4194304 }
    requires place { k < run_count n items }
    ensures start { result.start ≡ (run_at n k).start }
    ensures end { result.end ≡ min ((run_at n k).start + (run_at n k).count) items }
    ensures span { IsSpan items result }
{
    let start = start_of(n, items, k);
    Span {
        start,
        end: start.saturating_add(run_size(n)).min(items),
    }
}
