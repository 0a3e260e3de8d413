// The sentence of a line.
ghost use Rattle.std.specs.Prelude.{◌≡◌, ◌≤◌, Ok as OkValue, false, length, map, vec_len, IfOk, IfErr};
ghost use Rattle.std.specs.List.{All};
ghost use Rattle.j_words.specs.Lines.{IsWithin};
ghost use Rattle.j_entity.specs.View.{word_of};
ghost use Rattle.j_explicit.specs.Reading.{items_of, reading};
ghost use Rattle.j_explicit.specs.Refusals.{IsLineFault};

use crate::fault::LineFault;
use crate::item::{read_item, takes_ranks};
use j_entity::{Item, Prepared};
use j_noun::Pool;
use j_words::{Word, words};
use std::alloc::Global;

/// The words of a line, as they stand in the sentence.
#[tactic(auto, using(crate::proofs::Items::items_more, crate::proofs::Items::items_fault, crate::proofs::Items::items_end, crate::proofs::Items::word_within, crate::proofs::Items::after_none))]
fn read_items(
    alloc: Global,
    pool: &mut Pool,
    line: &[u8],
    words: &[Word],
) -> Result<Vec<Item>, LineFault>
    requires { All (IsWithin (length line.now)) words.now }
    ensures ok { IfOk result (λ v. items_of line.now false words.now ≡ OkValue (map word_of v.items)) }
    ensures few { IfOk result (λ v. vec_len v ≤ length words.now) }
    ensures err { IfErr result (λ f. IsLineFault (items_of line.now false words.now) f) }
{
    let mut items = pool.fresh(words.len())?;
    let mut ranks = false;
    for word in words {
        let item = read_item(alloc, pool, line, *word, ranks)?;
        ranks = takes_ranks(&item);
        if items.push(item).is_err() {
            return Err(LineFault::NoMemory);
        }
    }
    Ok(items)
}

/// Reads the words of a line.
#[tactic(auto, using(crate::proofs::Placed::words_placed))]
pub fn prepare(alloc: Global, pool: &mut Pool, line: &[u8]) -> Result<Prepared, LineFault>
    requires { length line.now ≤ 16777216 }
    ensures ok { IfOk result (λ p. reading line.now ≡ OkValue p) }
    ensures few { IfOk result (λ p. length p ≤ length line.now) }
    ensures err { IfErr result (λ f. IsLineFault (reading line.now) f) }
{
    let words = words(pool, line)?;
    Ok(Prepared::make(read_items(alloc, pool, line, &words)?))
}
