// The items of a noun, from the last to the first.
ghost use Rattle.std.specs.Prelude.{◌≡◌, ◌<◌, ◌≤◌, ◌-◌, drop, IfOk, IfErr, IsOk};
ghost use Rattle.j_definitions.specs.Array.{tally};
ghost use Rattle.j_noun.specs.Held.{IsInline};
ghost use Rattle.j_rank.specs.Cells.{cell};
ghost use Rattle.j_insert.specs.Insertion.{all_items, items_from_right, first_noun};

use j_noun::{NoMemory, Noun, Pool};
use j_rank::{atom_of, atoms_of_part, shape_of, size_within};
use std::marker::Model;

/// The items of a noun that are still to come, the last one first.
#[derive(Drop)]
pub struct FromRight<'a> {
    noun: &'a Noun,
    left: usize,
}

impl<'a> Model for FromRight<'a> {
    ghost use Rattle.j_insert.specs.Insertion.{Remaining};

    ghost Value = { Remaining };

    ghost use Rattle.j_insert.specs.Coded.{remaining_code};

    ghost coded = { remaining_code };

    ghost view = { λ f. record { noun = f.noun.now; left = f.left } };

    ghost use Rattle.std.specs.Prelude.{◌≤◌};
    ghost use Rattle.j_definitions.specs.Array.{tally};

    ghost invariant = { λ f. f.left ≤ tally f.noun.now.shape };
}

// Item k. An atom that isn't boxed takes no memory.
fn item_of(pool: &mut Pool, y: &Noun, k: usize) -> Result<Noun, NoMemory>
    requires { k < tally y.now.shape }
    ensures ok { IfOk result (λ a. a ≡ cell 1 y.now k) }
    ensures atom { IsInline (cell 1 y.now k) → IsOk result }
{
    let atoms = y.view();
    let axes = y.axes();
    if axes.is_empty() {
        return y.duplicate();
    }
    if axes.len() == 1 {
        return atom_of(pool, y, k);
    }
    let own = &axes[1..];
    let Some(size) = size_within(own) else {
        return Err(NoMemory);
    };
    let taken = atoms_of_part(pool, atoms, k, size)?;
    match Noun::make(pool, shape_of(own), taken) {
        Ok(item) => Ok(item),
        Err(_) => Err(NoMemory),
    }
}

/// All items of a noun, where an atom is its own item.
pub fn from_right(y: &Noun) -> FromRight<'_>
    ensures { result ≡ all_items y.now }
{
    FromRight {
        noun: y,
        left: y.tally(),
    }
}

impl<'a> FromRight<'a> {
    /// The next item, or `None` where all have come. An atom that isn't boxed takes no memory.
    pub fn next(&mut self, pool: &mut Pool) -> Result<Option<Noun>, NoMemory>
        ensures noun { self.new.noun ≡ self.old.noun }
        ensures item { IfOk result (λ o. o ≡ first_noun (items_from_right self.old)) }
        ensures rest { IfOk result (λ _. items_from_right self.new ≡ drop 1 (items_from_right self.old)) }
        ensures fewer { IfOk result (λ _. self.new.left ≡ self.old.left - 1) }
        ensures unchanged { IfErr result (λ _. self.new ≡ self.old) }
        ensures atom { IsInline (cell 1 self.old.noun (self.old.left - 1)) → IsOk result }
    {
        if self.left == 0 {
            return Ok(None);
        }
        let item = item_of(pool, self.noun, self.left - 1)?;
        self.left -= 1;
        Ok(Some(item))
    }
}
