// Verbs that are one word, on whole nouns.
ghost use Rattle.std.specs.Prelude.{◌≡◌, pos, IfSome};
ghost use Rattle.std.specs.Option.{option_copied};
ghost use Rattle.j_definitions.specs.Array.{IsNoun};
ghost use Rattle.j_definitions.specs.declared.Kind.TheVariants.{Number as NumberKind};
ghost use Rattle.j_noun.specs.Refused.{OrWanting};
ghost use Rattle.j_noun.specs.declared.ranks.Rank.TheVariants as rank;
ghost use Rattle.j_verbs.specs.Answered.{Gives};
ghost use Rattle.j_verbs.specs.ByRank.{by_ranks};
ghost use Rattle.j_verbs.specs.Laws.{IsNounOrNone, AreZero, scalar};
ghost use Rattle.j_verbs.specs.Words.{valence as valence_of, word, HasValence};
ghost use Rattle.j_verbs.specs.declared.calls.Dyad.TheVariants.{From};
ghost use Rattle.j_verbs.specs.declared.table.Valence.TheVariants.{OnTwo, Scalar as ScalarValence};

use crate::calls::Dyad;
use crate::table::Valence;
use crate::words::valence;
use j_kernels as kernels;
use j_kernels::Scalar;
use j_leaves::{Primitive, Ranks};
use j_noun::{Kind, Noun, Pool, Rank, Refusal};
use j_select::from_list;

fn is_noun(y: &Noun)
    ensures { IsNoun y.now }
{
    let _ = y.view();
}

fn are_nouns(x: Option<&Noun>, y: &Noun)
    ensures left { IsNounOrNone (option_copied x.entry) }
    ensures right { IsNoun y.now }
{
    is_noun(y);
    if let Some(x) = x {
        is_noun(x);
    }
}

// Whether the ranks of the valence are 0, so that each atom is a cell.
fn are_zero(r: Ranks, x: Option<&Noun>) -> Option<()>
    ensures { IfSome result (λ _. AreZero r (option_copied x.entry)) }
{
    let zero = Rank::Number(0);
    let are = match x {
        Some(_) => r.left == zero && r.right == zero,
        None => r.monad == zero,
    };
    if are { Some(()) } else { None }
}

// A scalar verb on whole nouns.
fn scalar(pool: &mut Pool, v: Scalar, x: Option<&Noun>, y: &Noun) -> Result<Noun, Refusal>
    requires { HasValence v (option_copied x) }
    ensures { OrWanting (scalar v (option_copied x.entry) y.now) result }
{
    match x {
        Some(x) => kernels::dyad(v, pool, x, y),
        None => kernels::monad(v, pool, y),
    }
}

// Whether x holds numbers, each of which is a cell, and y is one cell.
fn are_indices(r: Ranks, x: &Noun) -> Option<()>
    ensures left { IfSome result (λ _. r.left ≡ rank.Number (pos 0)) }
    ensures right { IfSome result (λ _. r.right ≡ rank.Infinite) }
    ensures numbers { IfSome result (λ _. x.now.kind ≡ NumberKind) }
{
    let are = r.left == Rank::Number(0) && r.right == Rank::Infinite && x.kind() == Kind::Number;
    if are { Some(()) } else { None }
}

// `x { y` for all numbers x at once.
#[tactic(auto, using(crate::proofs::Answers::from_gives))]
fn from_all(
    pool: &mut Pool,
    p: Primitive,
    r: Ranks,
    x: Option<&Noun>,
    y: &Noun,
) -> Option<Result<Noun, Refusal>>
    requires { valence_of p (option_copied x) ≡ OnTwo From }
    ensures { IfSome result (λ a. Gives (by_ranks r (word p) (option_copied x.entry) y.now) a) }
{
    let x = x?;
    are_indices(r, x)?;
    is_noun(x);
    is_noun(y);
    Some(from_list(pool, x, y))
}

// A scalar verb by ranks 0.
fn scalar_all(
    pool: &mut Pool,
    p: Primitive,
    v: Scalar,
    r: Ranks,
    x: Option<&Noun>,
    y: &Noun,
) -> Option<Result<Noun, Refusal>>
    requires valence { valence_of p (option_copied x) ≡ ScalarValence v }
    requires served { HasValence v (option_copied x) }
    ensures { IfSome result (λ a. Gives (by_ranks r (word p) (option_copied x.entry) y.now) a) }
{
    are_zero(r, x)?;
    are_nouns(x, y);
    Some(scalar(pool, v, x, y))
}

/// What a word gives by these ranks on all cells of its arguments at once, where it is served so. `None` says nothing of the verb: the caller goes through the cells.
pub fn whole(
    pool: &mut Pool,
    p: Primitive,
    r: Ranks,
    x: Option<&Noun>,
    y: &Noun,
) -> Option<Result<Noun, Refusal>>
    ensures { IfSome result (λ a. Gives (by_ranks r (word p) (option_copied x.entry) y.now) a) }
{
    match valence(p, x) {
        Valence::Scalar(v) => scalar_all(pool, p, v, r, x, y),
        Valence::OnTwo(Dyad::From) => from_all(pool, p, r, x, y),
        _ => None,
    }
}
