// The stack of a sentence. Its first entry, the leftmost, is last in the vector.
ghost use Rattle.std.specs.Prelude.{◌≡◌, ◌+◌, ◌∷◌, drop, length, option_map};
ghost use Rattle.j_entity.specs.Tree.{entity as entity_word};
ghost use Rattle.j_entity.specs.View.{operand_of, word_of, entity_of};
ghost use Rattle.j_eval.specs.Table.{kind_of, slot_at, kind_at, entity_kind, word_kind, is_start, is_copula, is_open, is_close, is_noun, is_verb, is_adverb, is_conjunction, is_name, is_edge, is_operand, is_left, is_entity, fits, row_at, row_of, Word};
ghost use Rattle.j_eval.specs.Stack.{slot_of, stack_of, word_at, entity_at, noun_at, verb_at, adverb_at, conjunction_at, entity_operand, operand_at, replaced};
ghost use Rattle.j_eval.specs.Meets.{NoMemoryOr, IsPartAs};

use crate::outcome::Halt;
use j_entity::{Entity, Item, Operand, Operator, Verb};
use j_noun::{Fault, Noun};

/// An entry of the stack: the start mark or a word.
#[derive(Drop)]
pub enum Entry {
    Start,
    Word(Item),
}

/// What the table's rows look at.
#[derive(Clone, Copy, PartialEq, Eq, Debug)]
pub enum EntryKind {
    Start,
    Copula,
    Open,
    Close,
    Noun,
    Verb,
    Adverb,
    Conjunction,
    Name,
    Nothing,
}

/// A row of the parsing table.
#[derive(Clone, Copy, PartialEq, Eq, Debug)]
pub enum Row {
    Monad,
    MonadRight,
    Dyad,
    Adverb,
    Conjunction,
    Fork,
    Bident,
    Assignment,
    Parentheses,
}

fn entity_kind(entity: &Entity) -> EntryKind
    ensures { result ≡ entity_kind (entity_of entity.now) }
{
    match entity {
        Entity::Noun(_) => EntryKind::Noun,
        Entity::Verb(_) => EntryKind::Verb,
        Entity::Adverb(_) => EntryKind::Adverb,
        Entity::Conjunction(_) => EntryKind::Conjunction,
    }
}

fn word_kind(word: &Item) -> EntryKind
    ensures { result ≡ word_kind (word_of word.now) }
{
    match word {
        Item::Entity(entity) => entity_kind(entity),
        Item::Ranks(_) => EntryKind::Noun,
        Item::Name(_) => EntryKind::Name,
        Item::Local | Item::Global => EntryKind::Copula,
        Item::Open => EntryKind::Open,
        Item::Close => EntryKind::Close,
    }
}

pub fn kind_of(entry: &Entry) -> EntryKind
    ensures { result ≡ kind_of (slot_of entry.now) }
{
    match entry {
        Entry::Start => EntryKind::Start,
        Entry::Word(word) => word_kind(word),
    }
}

/// The entry at a place.
pub fn entry_at(stack: &[Entry], k: u32) -> Option<&Entry>
    ensures { option_map (λ e. slot_of e.now) result ≡ slot_at (stack_of stack.now) k }
{
    match stack.split_last() {
        None => None,
        Some((first, rest)) => {
            if k == 0 {
                Some(first)
            } else {
                entry_at(rest, k - 1)
            }
        }
    }
}

pub fn kind_at(stack: &[Entry], k: u32) -> EntryKind
    ensures { result ≡ kind_at (stack_of stack.now) k }
{
    match entry_at(stack, k) {
        None => EntryKind::Nothing,
        Some(entry) => kind_of(entry),
    }
}

fn is_noun(k: EntryKind) -> bool
    ensures { result ≡ is_noun k }
{
    matches!(k, EntryKind::Noun)
}

fn is_verb(k: EntryKind) -> bool
    ensures { result ≡ is_verb k }
{
    matches!(k, EntryKind::Verb)
}

fn is_adverb(k: EntryKind) -> bool
    ensures { result ≡ is_adverb k }
{
    matches!(k, EntryKind::Adverb)
}

fn is_conjunction(k: EntryKind) -> bool
    ensures { result ≡ is_conjunction k }
{
    matches!(k, EntryKind::Conjunction)
}

pub fn is_copula(k: EntryKind) -> bool
    ensures { result ≡ is_copula k }
{
    matches!(k, EntryKind::Copula)
}

fn is_open(k: EntryKind) -> bool
    ensures { result ≡ is_open k }
{
    matches!(k, EntryKind::Open)
}

fn is_close(k: EntryKind) -> bool
    ensures { result ≡ is_close k }
{
    matches!(k, EntryKind::Close)
}

fn is_name(k: EntryKind) -> bool
    ensures { result ≡ is_name k }
{
    matches!(k, EntryKind::Name)
}

pub fn is_start(k: EntryKind) -> bool
    ensures { result ≡ is_start k }
{
    matches!(k, EntryKind::Start)
}

fn is_edge(k: EntryKind) -> bool
    ensures { result ≡ is_edge k }
{
    is_start(k) || is_copula(k) || is_open(k)
}

fn is_operand(k: EntryKind) -> bool
    ensures { result ≡ is_operand k }
{
    is_noun(k) || is_verb(k)
}

fn is_left(k: EntryKind) -> bool
    ensures { result ≡ is_left k }
{
    is_edge(k) || is_adverb(k) || is_operand(k)
}

pub fn is_entity(k: EntryKind) -> bool
    ensures { result ≡ is_entity k }
{
    is_conjunction(k) || is_adverb(k) || is_operand(k)
}

/// What each row asks of the first four entries.
fn fits(a: EntryKind, b: EntryKind, c: EntryKind, d: EntryKind, row: Row) -> bool
    ensures { result ≡ fits a b c d row }
{
    match row {
        Row::Monad => is_edge(a) && is_verb(b) && is_noun(c),
        Row::MonadRight => is_left(a) && is_verb(b) && is_verb(c) && is_noun(d),
        Row::Dyad => is_left(a) && is_noun(b) && is_verb(c) && is_noun(d),
        Row::Adverb => is_left(a) && is_operand(b) && is_adverb(c),
        Row::Conjunction => is_left(a) && is_operand(b) && is_conjunction(c) && is_operand(d),
        Row::Fork => is_left(a) && is_operand(b) && is_verb(c) && is_verb(d),
        Row::Bident => is_edge(a) && is_entity(b) && is_entity(c),
        Row::Assignment => (is_name(a) || is_noun(a)) && is_copula(b) && is_entity(c),
        Row::Parentheses => is_open(a) && is_entity(b) && is_close(c),
    }
}

const TABLE: [Row; 9] = [
    Row::Monad,
    Row::MonadRight,
    Row::Dyad,
    Row::Adverb,
    Row::Conjunction,
    Row::Fork,
    Row::Bident,
    Row::Assignment,
    Row::Parentheses,
];

fn row_at(a: EntryKind, b: EntryKind, c: EntryKind, d: EntryKind) -> Option<Row>
    ensures { result ≡ row_at a b c d }
{
    TABLE.iter().copied().find(|row| fits(a, b, c, d, *row))
}

/// The first row that matches.
pub fn row_of(stack: &[Entry]) -> Option<Row>
    ensures { result ≡ row_of (stack_of stack.now) }
{
    row_at(
        kind_at(stack, 0),
        kind_at(stack, 1),
        kind_at(stack, 2),
        kind_at(stack, 3),
    )
}

#[tactic(auto, using(crate::proofs::Stacks::stack_more))]
pub fn push(stack: &mut Vec<Entry>, entry: Entry) -> Result<(), Halt>
    ensures { NoMemoryOr result (λ _. (stack_of stack.new.items ≡ slot_of entry ∷ stack_of stack.old.items) × (length stack.new.items ≡ length stack.old.items + 1)) }
{
    match stack.push(entry) {
        Ok(()) => Ok(()),
        Err(_) => Err(Halt::NoMemory),
    }
}

pub fn push_entity(stack: &mut Vec<Entry>, entity: Entity) -> Result<(), Halt>
    ensures { NoMemoryOr result (λ _. (stack_of stack.new.items ≡ Word (entity_word (entity_of entity)) ∷ stack_of stack.old.items) × (length stack.new.items ≡ length stack.old.items + 1)) }
{
    push(stack, Entry::Word(Item::Entity(entity)))
}

#[tactic(auto, unfolding(crate::specs::Stack::word_at))]
pub fn word_at(stack: &[Entry], k: u32) -> Result<&Item, Halt>
    ensures { IsPartAs (λ w. word_of w.now) (word_at (stack_of stack.now) k) result }
{
    match entry_at(stack, k) {
        Some(Entry::Word(word)) => Ok(word),
        Some(Entry::Start) | None => Err(Halt::Failed(Fault::Syntax)),
    }
}

#[tactic(auto, unfolding(crate::specs::Stack::entity_at))]
pub fn entity_at(stack: &[Entry], k: u32) -> Result<&Entity, Halt>
    ensures { IsPartAs (λ e. entity_of e.now) (entity_at (stack_of stack.now) k) result }
{
    match word_at(stack, k)? {
        Item::Entity(entity) => Ok(entity),
        Item::Ranks(_) | Item::Name(_) | Item::Local | Item::Global | Item::Open | Item::Close =>
            Err(Halt::Failed(Fault::Syntax)),
    }
}

#[tactic(auto, unfolding(crate::specs::Stack::noun_at))]
pub fn noun_at(stack: &[Entry], k: u32) -> Result<&Noun, Halt>
    ensures { IsPartAs (λ y. y.now) (noun_at (stack_of stack.now) k) result }
{
    match entity_at(stack, k)? {
        Entity::Noun(y) => Ok(y),
        Entity::Verb(_) | Entity::Adverb(_) | Entity::Conjunction(_) => {
            Err(Halt::Failed(Fault::Syntax))
        }
    }
}

#[tactic(auto, unfolding(crate::specs::Stack::verb_at))]
pub fn verb_at(stack: &[Entry], k: u32) -> Result<&Verb, Halt>
    ensures { IsPartAs (λ v. v.now) (verb_at (stack_of stack.now) k) result }
{
    match entity_at(stack, k)? {
        Entity::Verb(v) => Ok(v),
        Entity::Noun(_) | Entity::Adverb(_) | Entity::Conjunction(_) => {
            Err(Halt::Failed(Fault::Syntax))
        }
    }
}

#[tactic(auto, unfolding(crate::specs::Stack::adverb_at))]
pub fn adverb_at(stack: &[Entry], k: u32) -> Result<&Operator, Halt>
    ensures { IsPartAs (λ a. a.now) (adverb_at (stack_of stack.now) k) result }
{
    match entity_at(stack, k)? {
        Entity::Adverb(a) => Ok(a),
        Entity::Noun(_) | Entity::Verb(_) | Entity::Conjunction(_) => {
            Err(Halt::Failed(Fault::Syntax))
        }
    }
}

#[tactic(auto, unfolding(crate::specs::Stack::conjunction_at))]
pub fn conjunction_at(stack: &[Entry], k: u32) -> Result<&Operator, Halt>
    ensures { IsPartAs (λ c. c.now) (conjunction_at (stack_of stack.now) k) result }
{
    match entity_at(stack, k)? {
        Entity::Conjunction(c) => Ok(c),
        Entity::Noun(_) | Entity::Verb(_) | Entity::Adverb(_) => Err(Halt::Failed(Fault::Syntax)),
    }
}

// The operand that an entity is.
fn entity_operand(entity: &Entity) -> Result<Operand, Halt>
    ensures { IsPartAs operand_of (entity_operand (entity_of entity.now)) result }
{
    match entity {
        Entity::Noun(y) => Ok(Operand::Noun(y.duplicate()?)),
        Entity::Verb(v) => Ok(Operand::Verb(v.duplicate()?)),
        Entity::Adverb(_) | Entity::Conjunction(_) => Err(Halt::Failed(Fault::Syntax)),
    }
}

#[tactic(auto, unfolding(crate::specs::Stack::operand_at))]
pub fn operand_at(stack: &[Entry], k: u32) -> Result<Operand, Halt>
    ensures { IsPartAs operand_of (operand_at (stack_of stack.now) k) result }
{
    match word_at(stack, k)? {
        Item::Entity(entity) => entity_operand(entity),
        Item::Ranks(l) => Ok(Operand::Ranks(l.duplicate()?)),
        Item::Name(_) | Item::Local | Item::Global | Item::Open | Item::Close => {
            Err(Halt::Failed(Fault::Syntax))
        }
    }
}

// Takes the first n entries off.
fn drop_first(stack: &mut Vec<Entry>, n: usize)
    ensures { stack_of stack.new.items ≡ drop n (stack_of stack.old.items) }
{
    let left = stack.len().saturating_sub(n);
    stack.truncate(left);
}

/// Puts an entity in place of n entries, with k entries before it.
#[tactic(auto, using(crate::proofs::Stacks::stack_more, crate::proofs::Stacks::replaced_past, crate::proofs::Stacks::stack_empty))]
pub fn replace(stack: &mut Vec<Entry>, k: u32, n: usize, entity: Entity) -> Result<(), Halt>
    ensures { NoMemoryOr result (λ _. stack_of stack.new.items ≡ replaced k n (entity_of entity) (stack_of stack.old.items)) }
{
    if k == 0 {
        drop_first(stack, n);
        return push_entity(stack, entity);
    }
    match stack.pop() {
        None => Ok(()),
        Some(first) => {
            replace(stack, k - 1, n, entity)?;
            push(stack, first)?;
            Ok(())
        }
    }
}
