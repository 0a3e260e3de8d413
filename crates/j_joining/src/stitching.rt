// Two nouns joined item by item.
ghost use Rattle.std.specs.Prelude.{◌≡◌, ◌<◌, [], Result, IfOk};
ghost use Rattle.j_definitions.specs.Array.{Array, product};
ghost use Rattle.j_definitions.specs.declared.Fault.{Fault as AnyFault};
ghost use Rattle.j_noun.specs.Refused.{OrWanting};
ghost use Rattle.j_rank.specs.Plans.{HasCells};
ghost use Rattle.j_joining.specs.Stitching.{fills_joined, no_pairs_joined, or_zero, pair_joined, pairs_joined, stitch};

use crate::joining::append;
use j_noun::{NoMemory, Noun, Pool, Rank, Refusal};
use j_rank::{Collector, Plan, plan_dyad};

// The number 0 in place of a fault.
fn or_zero(r: Result<Noun, Refusal>) -> Result<Noun, NoMemory>
    ensures { (q : Result Array AnyFault) → OrWanting q r → IfOk result (λ a. a ≡ or_zero q) }
{
    match r {
        Ok(y) => Ok(y),
        Err(Refusal::Fault(_)) => Ok(Noun::number(0)),
        Err(Refusal::NoMemory) => Err(NoMemory),
    }
}

// A collector of the results of a plan's pairs.
fn collector(plan: &Plan) -> Collector
    ensures { result ≡ record { frame = plan.now.agreed.frame; results = [] } }
{
    Collector::new(plan.frame().copy())
}

// Two items of fills, joined.
fn fills_joined(pool: &mut Pool, plan: &Plan, x: &Noun, y: &Noun) -> Result<Noun, Refusal>
    requires left { HasCells plan.now.left plan.now.agreed.frame x.now.shape }
    requires right { HasCells plan.now.right plan.now.agreed.frame y.now.shape }
    ensures { OrWanting (fills_joined plan.now x.now y.now) result }
{
    let right = plan.fill_right(pool, y)?;
    let left = plan.fill_left(pool, x)?;
    append(pool, &left, &right)
}

// The noun where the frame holds a 0.
fn no_pairs_joined(pool: &mut Pool, plan: &Plan, x: &Noun, y: &Noun) -> Result<Noun, Refusal>
    requires none { product plan.now.agreed.frame ≡ 0 }
    requires left { HasCells plan.now.left plan.now.agreed.frame x.now.shape }
    requires right { HasCells plan.now.right plan.now.agreed.frame y.now.shape }
    ensures { OrWanting (no_pairs_joined plan.now x.now y.now) result }
{
    let r = or_zero(fills_joined(pool, plan, x, y))?;
    let mut results = collector(plan);
    results.push(pool, r)?;
    results.finish(pool)
}

// The items that meet at place k of the frame, joined.
fn pair_joined(pool: &mut Pool, plan: &Plan, x: &Noun, y: &Noun, k: usize) -> Result<Noun, Refusal>
    requires place { k < product plan.now.agreed.frame }
    requires left { HasCells plan.now.left plan.now.agreed.frame x.now.shape }
    requires right { HasCells plan.now.right plan.now.agreed.frame y.now.shape }
    ensures { OrWanting (pair_joined plan.now x.now y.now k) result }
{
    let left = plan.left(pool, x, k)?;
    let right = plan.right(pool, y, k)?;
    append(pool, &left, &right)
}

// The noun of the results of all pairs.
#[tactic(auto, using(crate::proofs::Stitched::more, crate::proofs::Stitched::faulty, crate::proofs::Stitched::finished, crate::proofs::Stitched::begun))]
fn pairs_joined(pool: &mut Pool, plan: &Plan, x: &Noun, y: &Noun) -> Result<Noun, Refusal>
    requires some { 0 < product plan.now.agreed.frame }
    requires left { HasCells plan.now.left plan.now.agreed.frame x.now.shape }
    requires right { HasCells plan.now.right plan.now.agreed.frame y.now.shape }
    ensures { OrWanting (pairs_joined plan.now x.now y.now) result }
{
    let mut results = collector(plan);
    for k in 0..plan.count() {
        let r = match pair_joined(pool, plan, x, y, k) {
            Ok(r) => r,
            Err(refusal) => return Err(refusal),
        };
        results.push(pool, r)?;
    }
    results.finish(pool)
}

/// Each item of x joined to that of y.
#[tactic(auto, using(crate::proofs::Stitched::unplanned, crate::proofs::Stitched::no_pairs, crate::proofs::Stitched::some_pairs))]
pub fn stitch(pool: &mut Pool, x: &Noun, y: &Noun) -> Result<Noun, Refusal>
    ensures { OrWanting (stitch x.now y.now) result }
{
    match plan_dyad(Rank::Number(-1), Rank::Number(-1), x, y) {
        Err(fault) => Err(Refusal::Fault(fault)),
        Ok(plan) => {
            if plan.count() == 0 {
                no_pairs_joined(pool, &plan, x, y)
            } else {
                pairs_joined(pool, &plan, x, y)
            }
        }
    }
}
