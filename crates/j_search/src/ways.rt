// Look-ups by the cheapest way that suits.
ghost use Rattle.std.specs.Prelude.{◌≡◌, ◌≤◌, ◌*◌, length, IfOk};
ghost use Rattle.j_search.specs.Sought.{run_places};

use crate::merged::find_each_by_words;
use crate::numbered::Numbered;
use crate::packed::packed_range_of_both;
use crate::seeking::{Side, Sizes, find_each};
use crate::sought::find_each_in_order;
use crate::tabled::{find_each_by_table, narrow_range};
use j_noun::{NoMemory, Pool};

// So few items, or so few cells, are compared one by one.
const FEW: usize = 16;

/// The place of each cell among the items.
pub fn find_numbers<T: Numbered>(
    pool: &mut Pool,
    side: Side,
    sizes: Sizes,
    items: &[T],
    cells: &[T],
) -> Result<Vec<i64>, NoMemory>
    requires items { length items.now ≡ sizes.items * sizes.size }
    requires cells { length cells.now ≡ sizes.cells * sizes.size }
    requires few { sizes.items ≤ 4194304 }
    ensures { IfOk result (λ v. v.items ≡ run_places T.same side sizes.size sizes.items sizes.cells items.now cells.now) }
{
    if sizes.cells <= FEW {
        return find_each(pool, side, sizes, items, cells);
    }
    if sizes.size == 1 {
        if let Some(range) = narrow_range(items) {
            return find_each_by_table(pool, side, range, items, cells);
        }
        if let Some(range) = packed_range_of_both(items, cells) {
            return find_each_by_words(pool, side, range, items, cells);
        }
    }
    if sizes.items <= FEW {
        return find_each(pool, side, sizes, items, cells);
    }
    find_each_in_order(pool, side, sizes, items, cells)
}
