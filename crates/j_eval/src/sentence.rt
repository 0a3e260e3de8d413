// The sentences of a run: the parsing table is run over a queue and a stack.
ghost use Rattle.std.specs.Prelude.{◌≡◌, ◌+◌, ◌∷◌, [], IfOk, length, map, option_map};
ghost use Rattle.j_entity.specs.Tree.{a_verb, named};
ghost use Rattle.j_entity.specs.View.{entity_of, word_of};
ghost use Rattle.j_noun.specs.Refused.{OrWantingAs};
ghost use Rattle.j_eval.specs.Applying.{nested};
ghost use Rattle.j_eval.specs.Stack.{stack_of, slot_of};
ghost use Rattle.j_eval.specs.Table.{Word};
ghost use Rattle.j_eval.specs.Meaning.{ranked, entity_bident, is_local, assigned, monad_at, dyad_at, modified, joined, train, bident, assignment, formed, made, kept, used, reduced, is_assignment, name_moved, word_moved, moved, value_of, finished, sentence};
ghost use Rattle.j_eval.specs.Meets.{Meets, MeetsAs, MeetsAt, IsPartAs, NoMemoryOr, Onward, given_of};
ghost use Rattle.j_verbs.specs.State.{or_fault};

use crate::machine::Machine;
use crate::outcome::Halt;
use crate::stack::{
    Entry, Row, adverb_at, conjunction_at, entity_at, entry_at, is_copula, is_start, kind_at,
    noun_at, operand_at, push, replace, row_of, verb_at, word_at,
};
use j_entity::{Entity, Item, Operand, Operator, OperatorParts, Tree, Verb};
use j_leaves::{Name, Ranks};
use j_noun::{Fault, Rank, RankList, Refusal};
use j_trains as trains;
use std::alloc::Global;

// A conjunction and a rank list right of it.
fn ranked(alloc: Global, b: &Entity, l: &RankList) -> Result<Entity, Refusal>
    ensures { OrWantingAs entity_of (ranked (entity_of b.now) l.now) result }
{
    match b {
        Entity::Conjunction(c) => {
            let parts = OperatorParts::Right(c.duplicate()?, Operand::Ranks(l.duplicate()?));
            Ok(Entity::Adverb(Operator::derive(alloc, parts)?))
        }
        Entity::Noun(_) | Entity::Verb(_) | Entity::Adverb(_) => {
            Err(Refusal::Fault(Fault::Syntax))
        }
    }
}

// An entity and a word right of it.
fn entity_bident(alloc: Global, b: &Entity, c: &Item) -> Result<Entity, Refusal>
    ensures { OrWantingAs entity_of (entity_bident (entity_of b.now) (word_of c.now)) result }
{
    match c {
        Item::Entity(c) => trains::bident(alloc, b.duplicate()?, c.duplicate()?),
        Item::Ranks(l) => ranked(alloc, b, l),
        Item::Name(_) | Item::Local | Item::Global | Item::Open | Item::Close => {
            Err(Refusal::Fault(Fault::Syntax))
        }
    }
}

// An adverb right of its operand.
#[tactic(auto, unfolding(crate::specs::Meaning::modified))]
fn modified(alloc: Global, stack: &[Entry]) -> Result<Entity, Halt>
    ensures { IsPartAs entity_of (modified (stack_of stack.now)) result }
{
    let a = adverb_at(stack, 2)?;
    let u = operand_at(stack, 1)?;
    Ok(trains::adverb(alloc, a, u)?)
}

// A conjunction between its operands.
#[tactic(auto, unfolding(crate::specs::Meaning::joined))]
fn joined(alloc: Global, stack: &[Entry]) -> Result<Entity, Halt>
    ensures { IsPartAs entity_of (joined (stack_of stack.now)) result }
{
    let c = conjunction_at(stack, 2)?;
    let v = operand_at(stack, 3)?;
    let u = operand_at(stack, 1)?;
    Ok(trains::conjunction(alloc, c, u, v)?)
}

// Three verbs, or a noun and two verbs.
#[tactic(auto, unfolding(crate::specs::Meaning::train))]
fn train(alloc: Global, stack: &[Entry]) -> Result<Entity, Halt>
    ensures { IsPartAs entity_of (train (stack_of stack.now)) result }
{
    let g = verb_at(stack, 2)?;
    let h = verb_at(stack, 3)?;
    let f = operand_at(stack, 1)?;
    Ok(Entity::Verb(trains::fork(alloc, f, g.duplicate()?, h.duplicate()?)?))
}

// Two entities.
#[tactic(auto, unfolding(crate::specs::Meaning::bident))]
fn bident(alloc: Global, stack: &[Entry]) -> Result<Entity, Halt>
    ensures { IsPartAs entity_of (bident (stack_of stack.now)) result }
{
    let b = entity_at(stack, 1)?;
    let c = word_at(stack, 2)?;
    Ok(entity_bident(alloc, b, c)?)
}

// What a row forms, where it applies no verb and assigns nothing.
fn formed(alloc: Global, row: Row, stack: &[Entry]) -> Result<Entity, Halt>
    ensures { IsPartAs entity_of (formed row (stack_of stack.now)) result }
{
    match row {
        Row::Adverb => modified(alloc, stack),
        Row::Conjunction => joined(alloc, stack),
        Row::Fork => train(alloc, stack),
        Row::Bident => bident(alloc, stack),
        Row::Parentheses => Ok(entity_at(stack, 1)?.duplicate()?),
        Row::Monad | Row::MonadRight | Row::Dyad | Row::Assignment => {
            Err(Halt::Failed(Fault::Syntax))
        }
    }
}

// The verb that a name is, with these ranks.
fn name_verb(alloc: Global, name: &Name, ranks: Ranks) -> Result<Entity, Halt>
    ensures { NoMemoryOr result (λ e. entity_of e ≡ a_verb (named name.now ranks)) }
{
    Ok(Entity::Verb(Verb::named(alloc, name.duplicate()?, ranks)?))
}

// Whether a copula is `=.`.
fn is_local(copula: Option<&Entry>) -> bool
    ensures { result ≡ is_local (option_map (λ s. slot_of s.now) copula.entry) }
{
    matches!(copula, Some(Entry::Word(Item::Local)))
}

fn is_assignment(row: Row) -> bool
    ensures { result ≡ is_assignment row }
{
    matches!(row, Row::Assignment)
}

// How many entries stay before the entity of a row.
fn kept(row: Row) -> u32
    ensures { result ≡ kept row }
{
    match row {
        Row::Assignment | Row::Parentheses => 0,
        Row::MonadRight => 2,
        Row::Monad | Row::Dyad | Row::Adverb | Row::Conjunction | Row::Fork | Row::Bident => 1,
    }
}

// How many entries it stands for.
fn used(row: Row) -> usize
    ensures { result ≡ used row }
{
    match row {
        Row::Monad | Row::MonadRight | Row::Adverb | Row::Bident => 2,
        Row::Dyad | Row::Conjunction | Row::Fork | Row::Assignment | Row::Parentheses => 3,
    }
}

const ENDLESS: Ranks = Ranks {
    monad: Rank::Infinite,
    left: Rank::Infinite,
    right: Rank::Infinite,
};

impl Machine {
    // Whether a verb's name holds something.
    fn holds(&self, v: &Verb) -> Result<(), Halt>
        ensures { MeetsAs (λ _. a_verb v.now) result self.now (value_of (a_verb v.now) self.now.state) }
    {
        match v.tree() {
            Tree::Named(name, _) => {
                if self.found(name)?.is_none() {
                    return Err(Halt::Failed(Fault::Value));
                }
                Ok(())
            }
            Tree::Primitive(_)
            | Tree::Fork(_, _, _)
            | Tree::NounFork(_, _, _)
            | Tree::Hook(_, _)
            | Tree::Derived(_, _)
            | Tree::Derived2(_, _, _)
            | Tree::Explicit(_)
            | Tree::Explicit1(_, _)
            | Tree::Explicit2(_, _, _) => Ok(()),
        }
    }

    fn verb_value(&self, v: &Verb) -> Result<Entity, Halt>
        ensures { MeetsAs entity_of result self.now (value_of (a_verb v.now) self.now.state) }
    {
        self.holds(v)?;
        Ok(Entity::Verb(v.duplicate()?))
    }

    // The value that an entity is. A verb's name that holds nothing is no value.
    fn value_of(&self, e: &Entity) -> Result<Entity, Halt>
        ensures { MeetsAs entity_of result self.now (value_of (entity_of e.now) self.now.state) }
    {
        match e {
            Entity::Verb(v) => self.verb_value(v),
            Entity::Noun(y) => Ok(Entity::Noun(y.duplicate()?)),
            Entity::Adverb(a) => Ok(Entity::Adverb(a.duplicate()?)),
            Entity::Conjunction(c) => Ok(Entity::Conjunction(c.duplicate()?)),
        }
    }

    // At the end the stack is the start mark and one entity.
    #[tactic(auto, unfolding(crate::specs::Meaning::finished), using(crate::proofs::Stacks::length_stack))]
    fn finished(&self, quiet: bool, stack: &[Entry]) -> Result<(Entity, bool), Halt>
        ensures { MeetsAs given_of result self.now (finished quiet (stack_of stack.now) self.now.state) }
    {
        if stack.len() == 2 && is_start(kind_at(stack, 0)) {
            Ok((self.value_of(entity_at(stack, 1)?)?, quiet))
        } else {
            Err(Halt::Failed(Fault::Syntax))
        }
    }

    // What a name becomes when it is moved.
    fn name_moved(&self, name: &Name, held: Option<&Entity>) -> Result<Entity, Halt>
        ensures { NoMemoryOr result (λ e. entity_of e ≡ name_moved name.now (option_map (λ e. entity_of e.now) held.entry)) }
    {
        match held {
            None => name_verb(self.alloc(), name, ENDLESS),
            Some(Entity::Verb(v)) => name_verb(self.alloc(), name, v.ranks()),
            Some(Entity::Noun(y)) => Ok(Entity::Noun(y.duplicate()?)),
            Some(Entity::Adverb(a)) => Ok(Entity::Adverb(a.duplicate()?)),
            Some(Entity::Conjunction(c)) => Ok(Entity::Conjunction(c.duplicate()?)),
        }
    }

    // A word as it is moved, where it may be left of a copula.
    fn word_moved(&self, left: bool, word: &Item) -> Result<Item, Halt>
        ensures { MeetsAs word_of result self.now (word_moved left (word_of word.now) self.now.state) }
    {
        match word {
            Item::Name(name) if !left => {
                let held = self.found(name)?;
                Ok(Item::Entity(self.name_moved(name, held)?))
            }
            Item::Name(name) => Ok(Item::Name(name.duplicate()?)),
            Item::Entity(e) => Ok(Item::Entity(e.duplicate()?)),
            Item::Ranks(l) => Ok(Item::Ranks(l.duplicate()?)),
            Item::Local => Ok(Item::Local),
            Item::Global => Ok(Item::Global),
            Item::Open => Ok(Item::Open),
            Item::Close => Ok(Item::Close),
        }
    }

    // The next word is moved to the stack.
    fn move_word(&self, stack: &mut Vec<Entry>, word: &Item) -> Result<(), Halt>
        ensures gives { MeetsAt (stack_of stack.new.items) result self.now (moved (stack_of stack.old.items) (Word (word_of word.now)) self.now.state) }
        ensures one { IfOk result (λ _. length stack.new.items ≡ length stack.old.items + 1) }
    {
        let left = is_copula(kind_at(stack, 0));
        let word = self.word_moved(left, word)?;
        push(stack, Entry::Word(word))
    }

    // What a row forms.
    #[tactic(auto, using(crate::proofs::Parts::meets_part_as))]
    fn formed(&mut self, row: Row, stack: &[Entry]) -> Result<Entity, Halt>
        ensures gives { MeetsAs entity_of result self.new (or_fault (formed row (stack_of stack.now)) self.old.state) }
        ensures onward { Onward self.old self.new }
    {
        formed(self.alloc(), row, stack)
    }

    // A stack without entries.
    fn empty_stack(&self) -> Vec<Entry>
        ensures { result.items ≡ [] }
    {
        Vec::new(self.alloc())
    }

    // The verb and the noun at two places.
    #[tactic(auto, unfolding(crate::specs::Meaning::monad_at))]
    fn monad(&mut self, room: u32, stack: &[Entry], i: u32, j: u32) -> Result<Entity, Halt>
        ensures gives { MeetsAs entity_of result self.new (monad_at (nested room) (stack_of stack.now) i j self.old.state) }
        ensures onward { Onward self.old self.new }
    {
        let v = verb_at(stack, i)?;
        let y = noun_at(stack, j)?;
        Ok(Entity::Noun(self.call(room, v, None, y)?))
    }

    // A verb between two nouns.
    #[tactic(auto, unfolding(crate::specs::Meaning::dyad_at))]
    fn dyad(&mut self, room: u32, stack: &[Entry]) -> Result<Entity, Halt>
        ensures gives { MeetsAs entity_of result self.new (dyad_at (nested room) (stack_of stack.now) self.old.state) }
        ensures onward { Onward self.old self.new }
    {
        let x = noun_at(stack, 1)?;
        let v = verb_at(stack, 2)?;
        let y = noun_at(stack, 3)?;
        Ok(Entity::Noun(self.call(room, v, Some(x), y)?))
    }

    // What stands left of a copula is given an entity, where it is a name or a text of names.
    fn assign(&mut self, local: bool, left: Option<&Entry>, e: Entity) -> Result<(), Halt>
        ensures gives { Meets result self.new (assigned local (option_map (λ s. slot_of s.now) left.entry) (entity_of e) self.old.state) }
        ensures onward { Onward self.old self.new }
    {
        match left {
            Some(Entry::Word(Item::Name(name))) => self.set_name(local, name.duplicate()?, e),
            Some(Entry::Word(Item::Entity(Entity::Noun(y)))) => self.set_text(local, y, e),
            None
            | Some(
                Entry::Start
                | Entry::Word(
                    Item::Entity(Entity::Verb(_) | Entity::Adverb(_) | Entity::Conjunction(_))
                    | Item::Ranks(_)
                    | Item::Local
                    | Item::Global
                    | Item::Open
                    | Item::Close,
                ),
            ) => Err(Halt::Failed(Fault::Domain)),
        }
    }

    // What stands left of a copula is given the entity right of it.
    #[tactic(auto, unfolding(crate::specs::Meaning::assignment))]
    fn assignment(&mut self, stack: &[Entry]) -> Result<Entity, Halt>
        ensures gives { MeetsAs entity_of result self.new (assignment (stack_of stack.now) self.old.state) }
        ensures onward { Onward self.old self.new }
    {
        let e = entity_at(stack, 2)?;
        let local = is_local(entry_at(stack, 1));
        self.assign(local, entry_at(stack, 0), e.duplicate()?)?;
        Ok(e.duplicate()?)
    }

    // The entity that a row makes of the first entries.
    fn made(&mut self, room: u32, row: Row, stack: &[Entry]) -> Result<Entity, Halt>
        ensures gives { MeetsAs entity_of result self.new (made (nested room) row (stack_of stack.now) self.old.state) }
        ensures onward { Onward self.old self.new }
    {
        match row {
            Row::Monad => self.monad(room, stack, 1, 2),
            Row::MonadRight => self.monad(room, stack, 2, 3),
            Row::Dyad => self.dyad(room, stack),
            Row::Assignment => self.assignment(stack),
            Row::Adverb | Row::Conjunction | Row::Fork | Row::Bident | Row::Parentheses => {
                self.formed(row, stack)
            }
        }
    }

    // What a row does with the first entries.
    #[tactic(auto, unfolding(crate::specs::Meaning::reduced_by_places))]
    fn reduce(&mut self, room: u32, row: Row, stack: &mut Vec<Entry>) -> Result<(), Halt>
        ensures gives { MeetsAt (stack_of stack.new.items) result self.new (reduced (nested room) row (stack_of stack.old.items) self.old.state) }
        ensures onward { Onward self.old self.new }
    {
        let e = self.made(room, row, stack)?;
        replace(stack, kept(row), used(row), e)
    }

    /// The value of a sentence, and whether its last row was an assignment.
    pub(crate) fn evaluate(&mut self, room: u32, items: &[Item]) -> Result<(Entity, bool), Halt>
        ensures gives { MeetsAs given_of result self.new (sentence (nested room) (map word_of items.now) self.old.state) }
        ensures onward { Onward self.old self.new }
    {
        self.tick()?;
        let mut stack = self.empty_stack();
        let mut left = items;
        let mut started = false;
        let mut quiet = false;
        'turns: loop {
            if let Some(row) = row_of(&stack) {
                self.tick()?;
                self.reduce(room, row, &mut stack)?;
                quiet = is_assignment(row);
            } else if let Some((item, rest)) = left.split_last() {
                self.move_word(&mut stack, item)?;
                left = rest;
            } else if !started {
                push(&mut stack, Entry::Start)?;
                started = true;
            } else {
                return self.finished(quiet, &stack);
            }
        }
    }
}
