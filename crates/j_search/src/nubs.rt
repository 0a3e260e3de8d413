// The nub, and what it says of the items.
ghost use Rattle.j_noun.specs.Refused.{OrWanting};
ghost use Rattle.j_search.specs.Matching.{nub, nub_sieve, self_classify};

use crate::kept::{class_rows, own_bits, own_places};
use crate::looking::first_places;
use crate::picking::items_at;
use j_noun::{Atoms, Fault, Noun, Pool, Refusal};
use j_rank::{shape_of, size_within};

/// `~. y`.
pub fn nub(pool: &mut Pool, y: &Noun) -> Result<Noun, Refusal>
    ensures { OrWanting (nub y.now) result }
{
    let places = first_places(pool, y)?;
    let own = own_places(pool, &places)?;
    items_at(pool, y, &own)
}

/// `~: y`.
pub fn nub_sieve(pool: &mut Pool, y: &Noun) -> Result<Noun, Refusal>
    ensures { OrWanting (nub_sieve y.now) result }
{
    let places = first_places(pool, y)?;
    let bits = own_bits(pool, &places)?;
    Noun::make(pool, shape_of(&[y.tally()]), Atoms::Bits(bits))
}

/// `= y`.
pub fn self_classify(pool: &mut Pool, y: &Noun) -> Result<Noun, Refusal>
    ensures { OrWanting (self_classify y.now) result }
{
    let places = first_places(pool, y)?;
    let own = own_places(pool, &places)?;
    let axes = [own.len(), places.len()];
    let Some(_) = size_within(&axes) else {
        return Err(Refusal::Fault(Fault::Limit));
    };
    let bits = class_rows(pool, &own, &places)?;
    Noun::make(pool, shape_of(&axes), Atoms::Bits(bits))
}
