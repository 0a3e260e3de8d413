// How many bytes rows take.
ghost use Rattle.std.specs.Prelude.{◌≡◌, ◌+◌, ◌*◌, ◌≤◌, ◌<◌, ◌^◌, length};
ghost use Rattle.std.specs.List.{sum_by};
ghost use Rattle.j_definitions.specs.Array.{product};
ghost use Rattle.j_display.specs.Sizes.{row_bytes, stacked_bytes};

/// How many bytes a row in columns of these widths takes, with its line feed.
pub fn row_bytes(widths: &[u8]) -> usize
    requires few { length widths.now ≤ 4194304 }
    ensures value { result ≡ row_bytes widths.now }
    ensures few { result ≤ 256 * length widths.now }
{
    let mut bytes = 0;
    for width in widths {
        bytes += usize::from(*width) + 1;
    }
    bytes
}

/// How many bytes rows take that a frame arranges, where each takes so many.
pub fn stacked_bytes(frame: &[usize], row: usize) -> usize
    requires some { 0 < product frame.now }
    requires few { product frame.now ≤ 4194304 }
    requires rank { length frame.now ≤ 32 }
    requires light { product frame.now * row ≤ 1073741824 }
    ensures value { result ≡ stacked_bytes frame.now row }
    ensures few { result ≤ product frame.now * (row + 32 * length frame.now) }
{
    match frame.split_first() {
        None => row,
        Some((n, item)) => *n * stacked_bytes(item, row) + (*n - 1) * item.len(),
    }
}
