// The cells that a verb's ranks take of its arguments.
ghost use Rattle.std.specs.Prelude.{◌≡◌, ◌<◌, IfOk};
ghost use Rattle.std.specs.Option.{option_copied};
ghost use Rattle.j_definitions.specs.Array.{product};
ghost use Rattle.j_verbs.specs.Answered.{AreFills};
ghost use Rattle.j_verbs.specs.ByRank.{HasPairs, fills, pair, planned_for};

use j_leaves::Ranks;
use j_noun::{Fault, NoMemory, Noun, Pool, Refusal};
use j_rank::{Plan, plan_dyad, plan_monad};

/// Which cells of its arguments a verb of these ranks is applied to.
#[inline(never)]
pub fn planned(r: Ranks, x: Option<&Noun>, y: &Noun) -> Result<Plan, Fault>
    ensures plan { result ≡ planned_for r (option_copied x.entry) y.now }
    ensures cells { IfOk result (λ p. HasPairs p (option_copied x.entry) y.now) }
{
    match x {
        Some(x) => plan_dyad(r.left, r.right, x, y),
        None => plan_monad(r.monad, y),
    }
}

/// The cells that meet at place k of the frame.
#[inline(never)]
pub fn pair(
    pool: &mut Pool,
    plan: &Plan,
    x: Option<&Noun>,
    y: &Noun,
    k: usize,
) -> Result<(Option<Noun>, Noun), NoMemory>
    requires place { k < product plan.now.agreed.frame }
    requires cells { HasPairs plan.now (option_copied x) y.now }
    ensures { IfOk result (λ c. c ≡ pair plan.now (option_copied x.entry) y.now k) }
{
    match x {
        Some(x) => {
            let left = plan.left(pool, x, k)?;
            Ok((Some(left), plan.right(pool, y, k)?))
        }
        None => Ok((None, plan.right(pool, y, k)?)),
    }
}

/// The cells of fills, which stand for a pair where there is none.
#[inline(never)]
pub fn fills(
    pool: &mut Pool,
    plan: &Plan,
    x: Option<&Noun>,
    y: &Noun,
) -> Result<(Option<Noun>, Noun), Refusal>
    requires { HasPairs plan.now (option_copied x) y.now }
    ensures { AreFills (fills plan.now (option_copied x.entry) y.now) result }
{
    match x {
        Some(x) => {
            let left = plan.fill_left(pool, x)?;
            Ok((Some(left), plan.fill_right(pool, y)?))
        }
        None => Ok((None, plan.fill_right(pool, y)?)),
    }
}
