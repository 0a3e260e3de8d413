// The places of cells among items, where words of both are gone through in order.
ghost use Rattle.std.specs.Prelude.{◌≡◌, ◌<◌, ◌≤◌, ℕ, true, length, IfOk};
ghost use Rattle.std.specs.List.{All};
ghost use Rattle.j_search.specs.Packed.{word_before, word_place, IsWordBoundary};
ghost use Rattle.j_search.specs.Ranged.{LiesIn};
ghost use Rattle.j_search.specs.Sought.{run_places};

use crate::numbered::{Numbered, Range};
use crate::order::Direction;
use crate::packed::{distance_in, place_in, words_in_order};
use crate::seeking::Side;
use crate::sought::comes_before;
use j_noun::{NoMemory, Pool};
use j_rank::filled;

// How many words come before those of a distance, of which so many are known.
fn boundary(side: Side, words: &[u64], far: u64, known: usize) -> usize
    requires known { known ≤ length words.now }
    requires front { (s : ℕ) → s < known → word_before side words.now far s ≡ true }
    ensures { IsWordBoundary side words.now far result }
{
    for at in known..words.len() {
        let order = distance_in(words[at]).cmp(&far);
        if !comes_before(side, order) {
            return at;
        }
    }
    words.len()
}

// The place of a word of that distance, where so many come before the wanted one, or what stands for none.
fn word_place(side: Side, words: &[u64], far: u64, before: usize, none: usize) -> usize
    requires before { before ≤ length words.now }
    requires none { none ≤ 4194304 }
    ensures value { result ≡ word_place side words.now far before none }
    ensures within { result ≤ 4194304 }
{
    match side {
        Side::First => {
            if before < words.len() && distance_in(words[before]) == far {
                place_in(words[before])
            } else {
                none
            }
        }
        Side::Last => {
            if 0 < before && distance_in(words[before - 1]) == far {
                place_in(words[before - 1])
            } else {
                none
            }
        }
    }
}

/// The place of each cell among the items, where all of them are atoms of that range.
pub fn find_each_by_words<T: Numbered>(
    pool: &mut Pool,
    side: Side,
    range: Range,
    items: &[T],
    cells: &[T],
) -> Result<Vec<i64>, NoMemory>
    requires few { length items.now ≤ 4194304 }
    requires few_cells { length cells.now ≤ 4194304 }
    requires narrow { range.width ≤ 2199023255552 }
    requires items { All (λ x. LiesIn range (T.number x)) items.now }
    requires cells { All (λ x. LiesIn range (T.number x)) cells.now }
    ensures { IfOk result (λ v. v.items ≡ run_places T.eq side 1 (length items.now) (length cells.now) items.now cells.now) }
{
    let words = words_in_order(pool, Direction::Up, range, items)?;
    let turns = words_in_order(pool, Direction::Up, range, cells)?;
    let mut places = filled(pool, &0, cells.len())?;
    let none = items.len();
    let mut before = 0;
    for turn in &turns {
        let far = distance_in(*turn);
        before = boundary(side, &words, far, before);
        places[place_in(*turn)] = word_place(side, &words, far, before, none) as i64;
    }
    Ok(places)
}
