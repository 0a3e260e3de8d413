// A verb between items, and on all pairs of cells.
ghost use Rattle.std.specs.Prelude.{◌≡◌, ◌≤◌, ◌-◌, drop, length};
ghost use Rattle.std.specs.Option.{option_copied};
ghost use Rattle.j_definitions.specs.Limits.{limited};
ghost use Rattle.j_entity.specs.Ranks.{operand_ranks, three};
ghost use Rattle.j_entity.specs.View.{operand_of};
ghost use Rattle.j_insert.specs.Insertion.{all_items, first_noun, items_from_right};
ghost use Rattle.j_noun.specs.Refused.{OrWanting};
ghost use Rattle.j_noun.specs.declared.ranks.Rank.TheVariants.{Infinite};
ghost use Rattle.j_verbs.specs.State.{or_fault};
ghost use Rattle.j_eval.specs.Applying.{does, nested, seen};
ghost use Rattle.j_eval.specs.Insertion.{between, in_item_shape, inner_product, insert, insert_items, operand_identity, throughout, verb_identity};
ghost use Rattle.j_eval.specs.Meets.{Kept, Meets, NoMemoryOr, Onward};

use crate::by_rank::EachCell;
use crate::machine::Machine;
use crate::outcome::{Halt, or_halt};
use j_entity::{Operand, Tree, Verb, one_more};
use j_insert::{FromRight, from_right, identity};
use j_leaves::Ranks;
use j_noun::{Atoms, Fault, Noun, Pool, Rank, Refusal};
use j_rank::{filled, shape_of, size_within};

// The identity of a verb that is one word.
fn verb_identity(v: &Verb) -> Option<i64>
    ensures { result ≡ verb_identity v.now }
{
    match v.tree() {
        Tree::Primitive(p) => identity(p),
        Tree::Named(_, _)
        | Tree::Fork(_, _, _)
        | Tree::NounFork(_, _, _)
        | Tree::Hook(_, _)
        | Tree::Derived(_, _)
        | Tree::Derived2(_, _, _)
        | Tree::Explicit(_)
        | Tree::Explicit1(_, _)
        | Tree::Explicit2(_, _, _) => None,
    }
}

fn operand_identity(u: &Operand) -> Option<i64>
    ensures { result ≡ operand_identity (operand_of u.now) }
{
    match u {
        Operand::Verb(v) => verb_identity(v),
        Operand::Noun(_) | Operand::Ranks(_) => None,
    }
}

// The axes of an item.
fn item_axes(y: &Noun) -> &[usize]
    ensures axes { result.now ≡ drop 1 y.now.shape }
    ensures few { length result.now ≤ 32 }
{
    let _ = y.view();
    match y.axes() {
        [_, own @ ..] => own,
        [] => &[],
    }
}

// A number throughout a shape.
#[tactic(auto, using(crate::proofs::Identities::beyond, crate::proofs::Identities::made))]
fn throughout(pool: &mut Pool, z: i64, axes: &[usize]) -> Result<Noun, Refusal>
    requires { length axes.now ≤ 32 }
    ensures { OrWanting (limited (throughout z axes.now)) result }
{
    let Some(size) = size_within(axes) else {
        return Err(Refusal::Fault(Fault::Limit));
    };
    let atoms = filled(pool, &z, size)?;
    Noun::make(pool, shape_of(axes), Atoms::Wholes(atoms))
}

// The identity in the shape of an item.
fn in_item_shape(pool: &mut Pool, identity: Option<i64>, y: &Noun) -> Result<Noun, Refusal>
    ensures { OrWanting (in_item_shape identity y.now) result }
{
    match identity {
        Some(z) => throughout(pool, z, item_axes(y)),
        None => Err(Refusal::Fault(Fault::Domain)),
    }
}

// The left rank of an operand as a verb.
fn left_rank(u: &Operand) -> Rank
    ensures { result ≡ (operand_ranks (operand_of u.now)).left }
{
    match u {
        Operand::Verb(v) => v.ranks().left,
        Operand::Noun(_) | Operand::Ranks(_) => Rank::Infinite,
    }
}

// Infinite ranks but for the left one.
fn left_alone(left: Rank) -> Ranks
    ensures { result ≡ three Infinite left Infinite }
{
    Ranks {
        monad: Rank::Infinite,
        left,
        right: Rank::Infinite,
    }
}

impl Machine {
    // The item that comes next.
    fn next_item(&mut self, items: &mut FromRight<'_>) -> Result<Option<Noun>, Halt>
        ensures item { NoMemoryOr result (λ o. o ≡ first_noun (items_from_right items.old)) }
        ensures rest { NoMemoryOr result (λ _. items_from_right items.new ≡ drop 1 (items_from_right items.old)) }
        ensures fewer { NoMemoryOr result (λ _. items.new.left ≡ items.old.left - 1) }
        ensures kept { Kept self.old self.new }
    {
        Ok(items.next(&mut self.pool)?)
    }

    // The identity in the shape of an item of y.
    #[tactic(auto, using(crate::proofs::Parts::meets_answer))]
    fn no_items(&mut self, u: &Operand, y: &Noun) -> Result<Noun, Halt>
        ensures gives { Meets result self.new (or_fault (in_item_shape (operand_identity (operand_of u.now)) y.now) self.old.state) }
        ensures onward { Onward self.old self.new }
    {
        or_halt(in_item_shape(&mut self.pool, operand_identity(u), y))
    }

    // A verb between the items that are left and what it gave of those behind them.
    #[cycle(eval)]
    fn between(
        &mut self,
        room: u32,
        u: &Operand,
        mut items: FromRight<'_>,
        mut last: Noun,
    ) -> Result<Noun, Halt>
        ensures gives { Meets result self.new (between (does (nested room) (operand_of u.now)) (items_from_right items.entry) last self.old.state) }
        ensures onward { Onward self.old self.new }
    {
        loop {
            let Some(item) = self.next_item(&mut items)? else {
                return Ok(last);
            };
            let next = self.does(room, u, Some(&item), &last)?;
            drop(item);
            last = next;
        }
    }

    // `u/ y`
    #[cycle(eval)]
    fn insert_items(&mut self, room: u32, u: &Operand, y: &Noun) -> Result<Noun, Halt>
        ensures gives { Meets result self.new (insert_items (seen (nested room) (operand_of u.now)) y.now (items_from_right (all_items y.now)) self.old.state) }
        ensures onward { Onward self.old self.new }
    {
        let mut items = from_right(y);
        match self.next_item(&mut items)? {
            Some(last) => self.between(room, u, items, last),
            None => self.no_items(u, y),
        }
    }

    // `u/`
    #[cycle(eval)]
    pub(crate) fn insert(
        &mut self,
        room: u32,
        u: &Operand,
        x: Option<&Noun>,
        y: &Noun,
    ) -> Result<Noun, Halt>
        ensures gives { Meets result self.new (insert (seen (nested room) (operand_of u.now)) (option_copied x.entry) y.now self.old.state) }
        ensures onward { Onward self.old self.new }
    {
        match x {
            Some(_) => self.ranked(room, EachCell::Does(u), left_alone(left_rank(u)), x, y),
            None => self.insert_items(room, u, y),
        }
    }

    // `u . v`
    #[cycle(eval)]
    pub(crate) fn product(
        &mut self,
        room: u32,
        u: &Operand,
        v: &Operand,
        x: Option<&Noun>,
        y: &Noun,
    ) -> Result<Noun, Halt>
        ensures gives { Meets result self.new (inner_product (seen (nested room) (operand_of u.now)) (seen (nested room) (operand_of v.now)) (option_copied x.entry) y.now self.old.state) }
        ensures onward { Onward self.old self.new }
    {
        if x.is_none() {
            return Err(Halt::Failed(Fault::Nonce));
        }
        let ranks = left_alone(one_more(left_rank(v)));
        let r = self.ranked(room, EachCell::Does(v), ranks, x, y)?;
        let answer = self.does(room, u, None, &r);
        drop(r);
        answer
    }
}
