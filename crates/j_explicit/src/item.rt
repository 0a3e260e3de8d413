// The words of a sentence, each by its class.
ghost use Rattle.std.specs.Prelude.{◌≡◌, ◌≤◌, length, vec_len};
ghost use Rattle.j_entity.specs.Tree.{modifier, entity, a_conjunction};
ghost use Rattle.j_entity.specs.View.{word_of, takes_ranks};
ghost use Rattle.j_leaves.specs.Names.{name_of};
ghost use Rattle.j_leaves.specs.Spelling.{primitive_of, modifier_of};
ghost use Rattle.j_words.specs.Lines.{IsWithin};
ghost use Rattle.j_explicit.specs.Reading.{number_item, text_item, noun_word_item, verb_item, adverb_item, conjunction_item, copula_item, name_item, item_of, bytes_of};
ghost use Rattle.j_explicit.specs.NounWords.{noun_word};
ghost use Rattle.j_explicit.specs.Texts.{text};
ghost use Rattle.j_explicit.specs.Refusals.{IsItem, IsExactItem};

use crate::fault::LineFault;
use crate::noun_words::{read_ace, read_alphabet};
use crate::text::read_text;
use j_entity::{Entity, Item, Operator, OperatorTree, Verb};
use j_leaves::{Modifier, Name, Primitive};
use j_noun::{Fault, Pool};
use j_numbers::{Literal, read_list, read_noun};
use j_words::{Class, Word};
use std::alloc::Global;

fn number_item(pool: &mut Pool, bytes: &[u8], ranks: bool) -> Result<Item, LineFault>
    ensures { IsItem (number_item ranks bytes.now) result }
{
    if !ranks {
        return Ok(Item::Entity(Entity::Noun(read_noun(pool, bytes)?)));
    }
    match read_list(pool, bytes)? {
        Literal::Noun(noun) => Ok(Item::Entity(Entity::Noun(noun))),
        Literal::Ranks(list) => Ok(Item::Ranks(list)),
    }
}

fn text_item(pool: &mut Pool, bytes: &[u8]) -> Result<Item, LineFault>
    ensures { IsItem (text_item (text bytes.now)) result }
{
    Ok(Item::Entity(Entity::Noun(read_text(pool, bytes)?)))
}

fn noun_word_item(pool: &mut Pool, bytes: &[u8]) -> Result<Item, LineFault>
    ensures { IsItem (noun_word_item (noun_word bytes.now)) result }
{
    match bytes {
        b"a." => Ok(Item::Entity(Entity::Noun(read_alphabet(pool)?))),
        b"a:" => Ok(Item::Entity(Entity::Noun(read_ace(pool)?))),
        _ => Err(LineFault::Fault(Fault::Spelling)),
    }
}

fn verb_item(bytes: &[u8]) -> Result<Item, Fault>
    ensures { IsExactItem (verb_item (primitive_of bytes.now)) result }
{
    match Primitive::spelled(bytes) {
        Some(word) => Ok(Item::Entity(Entity::Verb(Verb::primitive(word)))),
        None => Err(Fault::Spelling),
    }
}

fn adverb_item(bytes: &[u8]) -> Result<Item, Fault>
    ensures { IsExactItem (adverb_item (modifier_of bytes.now)) result }
{
    match Modifier::spelled(bytes) {
        Some(word) => Ok(Item::Entity(Entity::Adverb(Operator::modifier(word)))),
        None => Err(Fault::Spelling),
    }
}

fn conjunction_item(bytes: &[u8]) -> Result<Item, Fault>
    ensures { IsExactItem (conjunction_item (modifier_of bytes.now)) result }
{
    match Modifier::spelled(bytes) {
        Some(word) => Ok(Item::Entity(Entity::Conjunction(Operator::modifier(word)))),
        None => Err(Fault::Spelling),
    }
}

fn copula_item(bytes: &[u8]) -> Result<Item, Fault>
    ensures { IsExactItem (copula_item bytes.now) result }
{
    match bytes {
        b"=." => Ok(Item::Local),
        b"=:" => Ok(Item::Global),
        _ => Err(Fault::Spelling),
    }
}

fn name_item(alloc: Global, bytes: &[u8]) -> Result<Item, LineFault>
    ensures { IsItem (name_item (name_of bytes.now)) result }
{
    match Name::read(alloc, bytes) {
        Ok(Some(name)) => Ok(Item::Name(name)),
        Ok(None) => Err(LineFault::Fault(Fault::Spelling)),
        Err(_) => Err(LineFault::NoMemory),
    }
}

/// The bytes of a word.
fn bytes_of(line: &[u8], word: Word) -> &[u8]
    requires { IsWithin (length line.now) word }
    ensures { result.now ≡ bytes_of line.now word }
{
    &line[word.from as usize..word.to as usize]
}

/// A word of a line, as it stands in the sentence. Only where the word to its left takes ranks may a number word have infinite parts.
pub(crate) fn read_item(
    alloc: Global,
    pool: &mut Pool,
    line: &[u8],
    word: Word,
    ranks: bool,
) -> Result<Item, LineFault>
    requires { IsWithin (length line.now) word }
    ensures { IsItem (item_of line.now ranks word) result }
{
    let bytes = bytes_of(line, word);
    match word.class {
        Class::Number => number_item(pool, bytes, ranks),
        Class::Text => text_item(pool, bytes),
        Class::Verb => Ok(verb_item(bytes)?),
        Class::Adverb => Ok(adverb_item(bytes)?),
        Class::Conjunction => Ok(conjunction_item(bytes)?),
        Class::Copula => Ok(copula_item(bytes)?),
        Class::Name => name_item(alloc, bytes),
        Class::Open => Ok(Item::Open),
        Class::Close => Ok(Item::Close),
        Class::NounWord => noun_word_item(pool, bytes),
        Class::Control => Err(LineFault::Fault(Fault::Nonce)),
    }
}

/// Whether a modifier is `"` or `^:`.
fn has_ranks(word: Modifier) -> bool
    ensures { result ≡ takes_ranks (entity (a_conjunction (modifier word))) }
{
    match word {
        Modifier::Rank | Modifier::PowerOf => true,
        _ => false,
    }
}

/// Whether a conjunction is `"` or `^:`.
fn is_rank_taker(conjunction: &Operator) -> bool
    ensures { result ≡ takes_ranks (entity (a_conjunction conjunction.now)) }
{
    match conjunction.tree() {
        OperatorTree::Primitive(word) => has_ranks(word),
        OperatorTree::Both(_, _)
        | OperatorTree::Right(_, _)
        | OperatorTree::Left(_, _)
        | OperatorTree::Explicit(_) => false,
    }
}

/// Whether a number word right of this word may have infinite parts.
pub(crate) fn takes_ranks(item: &Item) -> bool
    ensures { result ≡ takes_ranks (word_of item.now) }
{
    match item {
        Item::Entity(Entity::Conjunction(conjunction)) => is_rank_taker(conjunction),
        _ => false,
    }
}
