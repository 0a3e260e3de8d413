// The places of each key, linked.
ghost use Rattle.std.specs.Prelude.{◌≡◌, ◌<◌, pos, unsigned_abs, length, IfOk, replicate};
ghost use lib.ListN.{get_or};
ghost use Rattle.j_search.specs.Kept.{lost_places};
ghost use Rattle.j_cuts_key.specs.Kept.{AreLinks, ArePlaces};

use crate::lines::Links;
use j_noun::{NoMemory, Pool};

/// The place that stands at m.
pub fn class_at(classes: &[i64], m: usize) -> usize
    requires { m < length classes.now }
    ensures { result ≡ unsigned_abs (get_or classes.now m (pos 0)) }
{
    classes[m].unsigned_abs() as usize
}

// As many times the end.
fn ends(pool: &mut Pool, count: usize) -> Result<Vec<usize>, NoMemory>
    ensures { IfOk result (λ v. v.items ≡ replicate count count) }
{
    let mut out = pool.fresh(count)?;
    for _ in 0..count {
        let Ok(()) = out.push(count) else {
            return Err(NoMemory);
        };
    }
    Ok(out)
}

/// The links of keys whose places these are: the first place of each key, and the next place for each.
pub fn links(pool: &mut Pool, classes: &[i64]) -> Result<(Vec<usize>, Vec<usize>), NoMemory>
    requires { ArePlaces classes.now }
    ensures { IfOk result (λ v. AreLinks classes.now v.0.items v.1.items) }
{
    let mut heads = ends(pool, classes.len())?;
    let mut next = ends(pool, classes.len())?;
    let mut k = classes.len();
    while k > 0 {
        k -= 1;
        let class = class_at(classes, k);
        next[k] = heads[class];
        heads[class] = k;
    }
    Ok((heads, next))
}

/// The places of a key.
pub fn class_places(pool: &mut Pool, links: &Links, class: usize) -> Result<Vec<usize>, NoMemory>
    requires links { AreLinks links.now.classes.items links.now.heads.items links.now.next.items }
    requires place { class < length links.now.classes.items }
    ensures { IfOk result (λ v. v.items ≡ lost_places class links.now.classes.items) }
{
    let mut places = pool.fresh(1)?;
    let mut place = links.heads[class];
    while place < links.next.len() {
        let Ok(()) = places.push(place) else {
            return Err(NoMemory);
        };
        place = links.next[place];
    }
    Ok(places)
}
