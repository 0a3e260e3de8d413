// Verbs, operators, bodies and sentences: one cycle of types, each seen as its tree.
ghost use Rattle.std.specs.Prelude.{map, length, IsTrue, false, ◌≡◌, ◌≤◌, IfOk, IfErr, IsOk};
ghost use Rattle.j_noun.specs.Refused.{IsRefusedBeyond};
ghost use Rattle.j_entity.specs.Heights.{verb_height, operator_height};
ghost use Rattle.j_entity.specs.Kept.{IsMade, IsMadeOperator};
ghost use Rattle.j_entity.specs.Lent.{lent_verb, lent_operator};
ghost use Rattle.j_entity.specs.Ranks.{verb_ranks};
ghost use Rattle.j_entity.specs.Tree.{primitive, named, modifier};
ghost use Rattle.j_entity.specs.View.{verb_of, operand_of, operator_of, word_of, placed, entity_of};
ghost use Rattle.j_entity.specs.Words.{is_primitive, is_modifier, IsInlineOperand, IsInlineEntity};

use crate::ranks::primitive_ranks;
use crate::tree::{OperatorTree, Tree};
use j_leaves::{Modifier, Move, Name, Primitive, Ranks};
use j_noun::{Fault, NoMemory, Noun, RankList, Refusal};
use std::alloc::Global;
use std::marker::Model;
use std::rc::Rc;

/// Nothing is made higher than this.
const HEIGHT_LIMIT: u8 = 64;

// Lets go of a value.
fn discard<T: Drop>(_value: T) {}

// A value with an owner that can be shared.
fn owned<T: Drop>(alloc: Global, value: T) -> Result<Rc<T>, NoMemory>
    ensures { IfOk result (λ r. r.value ≡ value) }
{
    match Rc::new(alloc, value) {
        Ok(r) => Ok(r),
        Err(_) => Err(NoMemory),
    }
}

/// The parts of a verb: one variant for each kind of tree.
#[cycle(entity)]
#[derive(Drop)]
pub enum Parts {
    Primitive(Primitive),
    Named(Name, Ranks),
    Fork(Verb, Verb, Verb),
    NounFork(Noun, Verb, Verb),
    Hook(Verb, Verb),
    Derived(Modifier, Operand),
    Derived2(Modifier, Operand, Operand),
    Explicit(Body),
    Explicit1(Body, Operand),
    Explicit2(Body, Operand, Operand),
}

/// A verb. A primitive is kept inline, and copies of any other verb share its parts.
#[cycle(entity)]
#[derive(Drop)]
pub struct Verb {
    form: VerbForm,
}

#[cycle(entity)]
#[derive(Drop)]
enum VerbForm {
    Primitive(Primitive),
    Made(Rc<MadeVerb>),
}

// The parts of a verb, with its height and its ranks.
#[cycle(entity)]
#[derive(Drop)]
struct MadeVerb {
    parts: Parts,
    height: u8,
    ranks: Ranks,
}

const _: () = prove!(size_of::<Verb>() <= 16);

const _: () = prove!(size_of::<Operator>() <= 16);

impl Model for Verb {
    ghost use Rattle.j_entity.specs.Tree.{VerbTree, verb_depth};
    ghost use Rattle.j_entity.specs.Code.{coded_verb};

    ghost Value = { VerbTree };

    ghost coded = { coded_verb };

    ghost use Rattle.j_entity.specs.Kept.{formed_verb, IsKeptVerb};

    ghost view = { λ v. formed_verb v.form };

    ghost invariant = { λ v. IsKeptVerb v.form };

    ghost size = { verb_depth };

    ghost use Rattle.j_entity.specs.Deep.{verb_falls};

    ghost size_decreases = { λ a h. verb_falls a.form };
}

/// What a modifier is applied to.
#[cycle(entity)]
#[derive(Drop)]
pub enum Operand {
    Verb(Verb),
    Noun(Noun),
    Ranks(RankList),
}

/// The parts of an adverb or a conjunction: one variant for each kind of tree.
#[cycle(entity)]
#[derive(Drop)]
pub enum OperatorParts {
    Primitive(Modifier),
    Both(Operator, Operator),
    Right(Operator, Operand),
    Left(Operand, Operator),
    Explicit(Body),
}

/// An adverb or a conjunction. A modifier is kept inline, and copies of any other operator share its parts.
#[cycle(entity)]
#[derive(Drop)]
pub struct Operator {
    form: OperatorForm,
}

#[cycle(entity)]
#[derive(Drop)]
enum OperatorForm {
    Primitive(Modifier),
    Made(Rc<MadeOperator>),
}

// The parts of an operator, with its height.
#[cycle(entity)]
#[derive(Drop)]
struct MadeOperator {
    parts: OperatorParts,
    height: u8,
}

impl Model for Operator {
    ghost use Rattle.j_entity.specs.Tree.{OperatorTree, operator_depth};
    ghost use Rattle.j_entity.specs.Code.{coded_operator};

    ghost Value = { OperatorTree };

    ghost coded = { coded_operator };

    ghost use Rattle.j_entity.specs.Kept.{formed_operator, IsKeptOperator};

    ghost view = { λ o. formed_operator o.form };

    ghost invariant = { λ o. IsKeptOperator o.form };

    ghost size = { operator_depth };

    ghost use Rattle.j_entity.specs.Deep.{operator_falls};

    ghost size_decreases = { λ a h. operator_falls a.form };
}

/// What a name may hold and a sentence may give.
#[cycle(entity)]
#[derive(Drop)]
pub enum Entity {
    Noun(Noun),
    Verb(Verb),
    Adverb(Operator),
    Conjunction(Operator),
}

/// A word of a sentence; `Local` is `=.` and `Global` is `=:`.
#[cycle(entity)]
#[derive(Drop)]
pub enum Item {
    Entity(Entity),
    Ranks(RankList),
    Name(Name),
    Local,
    Global,
    Open,
    Close,
}

/// The words of one sentence.
#[cycle(entity)]
#[derive(Drop)]
pub struct Prepared {
    items: Vec<Item>,
}

impl Model for Prepared {
    ghost use Rattle.std.specs.Prelude.{List, map, IsTrue, false};
    ghost use Rattle.std.specs.Coded.{coded_list};
    ghost use Rattle.j_entity.specs.Tree.{WordTree, sentence_depth};
    ghost use Rattle.j_entity.specs.Code.{coded_word};

    ghost Value = { List WordTree };

    ghost coded = { coded_list coded_word };

    ghost use Rattle.j_entity.specs.View.{word_of, words_tree, placed};

    ghost view = { λ p. map word_of p.items.items };

    ghost invariant = { λ p. IsTrue (placed false (map word_of p.items.items)) };

    ghost size = { λ ws. sentence_depth (words_tree ws) };

    ghost use Rattle.j_entity.specs.Deep.{sentence_falls};

    ghost size_decreases = { λ a h. sentence_falls a.items.items };
}

/// The sentences of one valence of a body, and what is done with them.
#[cycle(entity)]
#[derive(Drop)]
pub struct Part {
    pub sentences: Vec<Prepared>,
    pub moves: Vec<Move>,
}

#[cycle(entity)]
#[derive(Drop)]
struct BodyParts {
    number: i64,
    lines: Vec<Vec<u8>>,
    monad: Option<Part>,
    dyad: Option<Part>,
}

/// An explicit definition: its number, its lines, and the parts of its two valences.
#[cycle(entity)]
#[derive(Drop)]
pub struct Body {
    held: Held,
}

/// A body is made without memory, and shared once it is part of a verb or an operator.
#[cycle(entity)]
#[derive(Drop)]
enum Held {
    Own(BodyParts),
    Shared(Rc<BodyParts>),
}

impl Model for Body {
    ghost use Rattle.j_entity.specs.Tree.{BodyTree, body_depth};
    ghost use Rattle.j_entity.specs.Code.{coded_body};

    ghost Value = { BodyTree };

    ghost coded = { coded_body };

    ghost use Rattle.j_entity.specs.View.{held_of};

    ghost view = { λ b. held_of b.held };

    ghost size = { body_depth };

    ghost use Rattle.j_entity.specs.Deep.{held_falls};

    ghost size_decreases = { λ a h. held_falls a.held };
}

impl Verb {
    /// The verb that a word is.
    pub fn primitive(p: Primitive) -> Verb
        ensures { result ≡ primitive p }
    {
        Verb {
            form: VerbForm::Primitive(p),
        }
    }

    /// The verb that a name is, with the ranks that it carries.
    pub fn named(alloc: Global, name: Name, ranks: Ranks) -> Result<Verb, NoMemory>
        ensures { IfOk result (λ v. v ≡ named name ranks) }
    {
        kept_verb(alloc, Parts::Named(name, ranks), 0, ranks)
    }

    /// The verb of these parts. A primitive takes no memory.
    pub fn derive(alloc: Global, parts: Parts) -> Result<Verb, Refusal>
        ensures ok { IfOk result (λ v. (v ≡ verb_of parts) × (verb_height (verb_of parts) ≤ 64)) }
        ensures err { IfErr result (IsRefusedBeyond (verb_height (verb_of parts) ≤ 64)) }
        ensures primitive { IsTrue (is_primitive (verb_of parts)) → IsOk result }
    {
        match parts {
            Parts::Primitive(p) => Ok(Verb::primitive(p)),
            parts => made_verb(alloc, parts),
        }
    }

    /// 0 for what isn't made of parts, else one more than that of the highest part.
    pub fn height(&self) -> u8
        ensures value { result ≡ verb_height self.now }
        ensures fits { result ≤ 64 }
    {
        match &self.form {
            VerbForm::Primitive(_) => 0,
            VerbForm::Made(made) => made.height,
        }
    }

    pub fn ranks(&self) -> Ranks
        ensures { result ≡ verb_ranks self.now }
    {
        match &self.form {
            VerbForm::Primitive(p) => primitive_ranks(*p),
            VerbForm::Made(made) => made.ranks,
        }
    }

    /// An equal verb, which shares the parts.
    pub fn duplicate(&self) -> Result<Verb, NoMemory>
        ensures ok { IfOk result (λ v. v ≡ self.now) }
        ensures primitive { IsTrue (is_primitive self.now) → IsOk result }
    {
        match &self.form {
            VerbForm::Primitive(p) => Ok(Verb::primitive(*p)),
            VerbForm::Made(made) => match made.clone() {
                Ok(made) => Ok(Verb {
                    form: VerbForm::Made(made),
                }),
                Err(_) => Err(NoMemory),
            },
        }
    }

    /// The tree of the verb, one level deep.
    pub fn tree(&self) -> Tree<'_>
        ensures { lent_verb result ≡ self.now }
    {
        match &self.form {
            VerbForm::Primitive(p) => Tree::Primitive(*p),
            VerbForm::Made(made) => made.parts.lend(),
        }
    }
}

// The verb of parts that are no word.
fn made_verb(alloc: Global, parts: Parts) -> Result<Verb, Refusal>
    requires { is_primitive (verb_of parts) ≡ false }
    ensures ok { IfOk result (λ v. (v ≡ verb_of parts) × (verb_height (verb_of parts) ≤ 64)) }
    ensures err { IfErr result (IsRefusedBeyond (verb_height (verb_of parts) ≤ 64)) }
{
    let height = parts.height();
    if height > HEIGHT_LIMIT {
        discard(parts);
        return Err(Refusal::Fault(Fault::Limit));
    }
    let ranks = parts.ranks();
    Ok(shared_verb(alloc, parts, height, ranks)?)
}

fn shared_verb(alloc: Global, parts: Parts, height: u8, ranks: Ranks) -> Result<Verb, NoMemory>
    requires { IsMade height ranks (verb_of parts) }
    ensures { IfOk result (λ v. v ≡ verb_of parts) }
{
    match parts.share(alloc) {
        Ok(parts) => kept_verb(alloc, parts, height, ranks),
        Err(_) => Err(NoMemory),
    }
}

fn kept_verb(alloc: Global, parts: Parts, height: u8, ranks: Ranks) -> Result<Verb, NoMemory>
    requires { IsMade height ranks (verb_of parts) }
    ensures { IfOk result (λ v. v ≡ verb_of parts) }
{
    let made = MadeVerb {
        parts,
        height,
        ranks,
    };
    Ok(Verb {
        form: VerbForm::Made(owned(alloc, made)?),
    })
}

impl Body {
    // The same body, whose parts can be shared.
    fn share(self, alloc: Global) -> Result<Body, NoMemory>
        ensures { IfOk result (λ b. b ≡ self) }
    {
        match self.held {
            Held::Own(parts) => Ok(Body {
                held: Held::Shared(owned(alloc, parts)?),
            }),
            Held::Shared(parts) => Ok(Body {
                held: Held::Shared(parts),
            }),
        }
    }
}

impl Parts {
    // The same parts with a body that can be shared.
    fn share(self, alloc: Global) -> Result<Parts, NoMemory>
        ensures { IfOk result (λ p. verb_of p ≡ verb_of self) }
    {
        match self {
            Parts::Explicit(b) => Ok(Parts::Explicit(b.share(alloc)?)),
            Parts::Explicit1(b, u) => match b.share(alloc) {
                Ok(b) => Ok(Parts::Explicit1(b, u)),
                Err(e) => {
                    discard(u);
                    Err(e)
                }
            },
            Parts::Explicit2(b, u, v) => match b.share(alloc) {
                Ok(b) => Ok(Parts::Explicit2(b, u, v)),
                Err(e) => {
                    discard(u);
                    discard(v);
                    Err(e)
                }
            },
            other => Ok(other),
        }
    }
}

impl OperatorParts {
    // The same parts with a body that can be shared.
    fn share(self, alloc: Global) -> Result<OperatorParts, NoMemory>
        ensures { IfOk result (λ p. operator_of p ≡ operator_of self) }
    {
        match self {
            OperatorParts::Explicit(b) => Ok(OperatorParts::Explicit(b.share(alloc)?)),
            other => Ok(other),
        }
    }
}

impl Operator {
    /// The operator that a word is.
    pub fn modifier(m: Modifier) -> Operator
        ensures { result ≡ modifier m }
    {
        Operator {
            form: OperatorForm::Primitive(m),
        }
    }

    /// The operator of these parts. A modifier takes no memory.
    pub fn derive(alloc: Global, parts: OperatorParts) -> Result<Operator, Refusal>
        ensures ok { IfOk result (λ o. (o ≡ operator_of parts) × (operator_height (operator_of parts) ≤ 64)) }
        ensures err { IfErr result (IsRefusedBeyond (operator_height (operator_of parts) ≤ 64)) }
        ensures modifier { IsTrue (is_modifier (operator_of parts)) → IsOk result }
    {
        match parts {
            OperatorParts::Primitive(m) => Ok(Operator::modifier(m)),
            parts => made_operator(alloc, parts),
        }
    }

    /// 0 for a word or a body, else one more than that of the highest part.
    pub fn height(&self) -> u8
        ensures value { result ≡ operator_height self.now }
        ensures fits { result ≤ 64 }
    {
        match &self.form {
            OperatorForm::Primitive(_) => 0,
            OperatorForm::Made(made) => made.height,
        }
    }

    /// An equal operator, which shares the parts.
    pub fn duplicate(&self) -> Result<Operator, NoMemory>
        ensures ok { IfOk result (λ o. o ≡ self.now) }
        ensures modifier { IsTrue (is_modifier self.now) → IsOk result }
    {
        match &self.form {
            OperatorForm::Primitive(m) => Ok(Operator::modifier(*m)),
            OperatorForm::Made(made) => match made.clone() {
                Ok(made) => Ok(Operator {
                    form: OperatorForm::Made(made),
                }),
                Err(_) => Err(NoMemory),
            },
        }
    }

    /// The tree of the operator, one level deep.
    pub fn tree(&self) -> OperatorTree<'_>
        ensures { lent_operator result ≡ self.now }
    {
        match &self.form {
            OperatorForm::Primitive(m) => OperatorTree::Primitive(*m),
            OperatorForm::Made(made) => made.parts.lend(),
        }
    }
}

// The operator of parts that are no word.
fn made_operator(alloc: Global, parts: OperatorParts) -> Result<Operator, Refusal>
    requires { is_modifier (operator_of parts) ≡ false }
    ensures ok { IfOk result (λ o. (o ≡ operator_of parts) × (operator_height (operator_of parts) ≤ 64)) }
    ensures err { IfErr result (IsRefusedBeyond (operator_height (operator_of parts) ≤ 64)) }
{
    let height = parts.height();
    if height > HEIGHT_LIMIT {
        discard(parts);
        return Err(Refusal::Fault(Fault::Limit));
    }
    Ok(shared_operator(alloc, parts, height)?)
}

fn shared_operator(alloc: Global, parts: OperatorParts, height: u8) -> Result<Operator, NoMemory>
    requires { IsMadeOperator height (operator_of parts) }
    ensures { IfOk result (λ o. o ≡ operator_of parts) }
{
    let parts = parts.share(alloc)?;
    let made = MadeOperator { parts, height };
    Ok(Operator {
        form: OperatorForm::Made(owned(alloc, made)?),
    })
}

impl Operand {
    /// An equal operand, which shares its parts.
    pub fn duplicate(&self) -> Result<Operand, NoMemory>
        ensures ok { IfOk result (λ u. operand_of u ≡ operand_of self.now) }
        ensures inline { IsInlineOperand (operand_of self.now) → IsOk result }
    {
        match self {
            Operand::Verb(v) => Ok(Operand::Verb(v.duplicate()?)),
            Operand::Noun(n) => Ok(Operand::Noun(n.duplicate()?)),
            Operand::Ranks(l) => Ok(Operand::Ranks(l.duplicate()?)),
        }
    }
}

impl Entity {
    /// An equal entity, which shares its parts.
    pub fn duplicate(&self) -> Result<Entity, NoMemory>
        ensures ok { IfOk result (λ e. entity_of e ≡ entity_of self.now) }
        ensures inline { IsInlineEntity (entity_of self.now) → IsOk result }
    {
        match self {
            Entity::Noun(n) => Ok(Entity::Noun(n.duplicate()?)),
            Entity::Verb(v) => Ok(Entity::Verb(v.duplicate()?)),
            Entity::Adverb(a) => Ok(Entity::Adverb(a.duplicate()?)),
            Entity::Conjunction(c) => Ok(Entity::Conjunction(c.duplicate()?)),
        }
    }
}

impl Prepared {
    /// The sentence of these words. A rank list stands only directly after the conjunction `"` or `^:`.
    pub fn make(items: Vec<Item>) -> Prepared
        requires { IsTrue (placed false (map word_of items.items)) }
        ensures { result ≡ map word_of items.items }
    {
        Prepared { items }
    }

    pub fn items(&self) -> &[Item]
        ensures words { map word_of result.now ≡ self.now }
        ensures placed { IsTrue (placed false self.now) }
    {
        self.items.as_slice()
    }

    /// The number of words.
    pub fn count(&self) -> usize
        ensures { result ≡ length self.now }
    {
        self.items.len()
    }
}
