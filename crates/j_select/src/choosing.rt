// All choices of one atom from each content.
ghost use Rattle.std.specs.Prelude.{◌≡◌, ◌<◌, ◌≤◌, ◌++◌, [], ◌∷◌, length, map, drop, nat_eq, OnOk, IfOk, IfSome, Ok as OkValue, Err as ErrValue, MatchOption};
ghost use Rattle.std.specs.List.{All, flat_map};
ghost use Rattle.j_definitions.specs.Array.{Array, Atom, number, byte, boxed, product};
ghost use Rattle.j_definitions.specs.Limits.{limited};
ghost use Rattle.j_definitions.specs.declared.Kind.{Kind};
ghost use Rattle.j_definitions.specs.declared.Kind.TheVariants.{Number as NumberKind, Character as CharacterKind, Boxed as BoxedKind};
ghost use Rattle.j_definitions.specs.declared.Fault.TheVariants.{Domain as DomainFault};
ghost use Rattle.j_noun.specs.Refused.{OrWanting};
ghost use Rattle.j_rank.specs.Joined.{Joins};
ghost use Rattle.j_select.specs.Catalogue.{kind_of_none, boxes_of_choices, catalogue_of, catalogue};
ghost use Rattle.j_indices.specs.Choices.{choices};
ghost use Rattle.j_select.specs.Listed.{listed, kind_of_some};

use crate::putting::{bytes_of, nouns_of, wholes_of};
use crate::reaching::index_nouns;
use j_indices::frame_of;
use j_noun::{Atoms, Fault, Kind, NoMemory, Noun, Pool, Refusal, Shape, boxes};
use j_rank::{Stored, copied, joined_kind, shape_of, size_within};

/// An element that stands in lists.
pub trait Listed: Drop {
    ghost kind: { Kind };

    ghost atom: { Self → Atom };

    /// The elements of a noun.
    fn elements(pool: &mut Pool, y: &Noun) -> Result<Vec<Self>, NoMemory>
        requires { Joins kind y.now }
        ensures { IfOk result (λ v. map atom v.items ≡ y.now.atoms) };

    /// The list of elements.
    fn list(pool: &mut Pool, elements: Vec<Self>) -> Result<Noun, NoMemory>
        ensures { IfOk result (λ a. a ≡ listed kind (map atom elements.items)) };
}

impl Listed for i64 {
    ghost kind = { NumberKind };

    ghost atom = { number };

    fn elements(pool: &mut Pool, y: &Noun) -> Result<Vec<i64>, NoMemory> {
        wholes_of(pool, y)
    }

    fn list(pool: &mut Pool, elements: Vec<i64>) -> Result<Noun, NoMemory>
        ensures { IfOk result (λ a. a ≡ listed NumberKind (map number elements.items)) }
    {
        let shape = shape_of(&[elements.len()]);
        match Noun::make(pool, shape, Atoms::Wholes(elements)) {
            Ok(list) => Ok(list),
            Err(_) => Err(NoMemory),
        }
    }
}

impl Listed for u8 {
    ghost kind = { CharacterKind };

    ghost atom = { byte };

    fn elements(pool: &mut Pool, y: &Noun) -> Result<Vec<u8>, NoMemory> {
        copied(pool, bytes_of(y))
    }

    fn list(pool: &mut Pool, elements: Vec<u8>) -> Result<Noun, NoMemory>
        ensures { IfOk result (λ a. a ≡ listed CharacterKind (map byte elements.items)) }
    {
        let shape = shape_of(&[elements.len()]);
        match Noun::make(pool, shape, Atoms::Bytes(elements)) {
            Ok(list) => Ok(list),
            Err(_) => Err(NoMemory),
        }
    }
}

impl Listed for Noun {
    ghost kind = { BoxedKind };

    ghost atom = { boxed };

    fn elements(pool: &mut Pool, y: &Noun) -> Result<Vec<Noun>, NoMemory> {
        copied(pool, nouns_of(y))
    }

    fn list(pool: &mut Pool, elements: Vec<Noun>) -> Result<Noun, NoMemory>
        ensures { IfOk result (λ a. a ≡ listed BoxedKind (map boxed elements.items)) }
    {
        let shape = shape_of(&[elements.len()]);
        match Noun::make(pool, shape, Atoms::Boxes(elements)) {
            Ok(list) => Ok(list),
            Err(_) => Err(NoMemory),
        }
    }
}

// Appends the elements of the first lists as long as they have one each, and gives how many such lists there are.
fn append_only<T: Stored + Listed>(front: &mut Vec<T>, rest: &[Vec<T>]) -> Result<usize, NoMemory>
    ensures within { IfOk result (λ k. k ≤ length rest.now) }
    ensures same { IfOk result (λ k. map (λ c. listed T.kind (map T.atom (front.new.items ++ c))) (choices (map (λ v. v.items) (drop k rest.now))) ≡ map (λ c. listed T.kind (map T.atom (front.old.items ++ c))) (choices (map (λ v. v.items) rest.now))) }
{
    let mut count: usize = 0;
    for list in rest {
        let [only] = list.as_slice() else {
            return Ok(count);
        };
        T::append_one(front, only)?;
        count += 1;
    }
    Ok(count)
}

// Appends the lists of all choices that begin with these elements.
fn append_choices<T: Stored + Listed>(
    pool: &mut Pool,
    out: &mut Vec<Noun>,
    front: &[T],
    rest: &[Vec<T>],
) -> Result<(), NoMemory>
    ensures { OnOk result (out.new.items ≡ out.old.items ++ map (λ c. listed T.kind (map T.atom (front.now ++ c))) (choices (map (λ v. v.items) rest.now))) }
{
    let mut begun = copied(pool, front)?;
    let only = append_only(&mut begun, rest)?;
    let (_, others) = rest.split_at(only);
    let [first, inner @ ..] = others else {
        let list = T::list(pool, begun)?;
        let Ok(()) = out.push(list) else {
            return Err(NoMemory);
        };
        return Ok(());
    };
    let begun = begun.as_slice();
    let elements = first.as_slice();
    for x in elements {
        let mut longer = copied(pool, begun)?;
        T::append_one(&mut longer, x)?;
        append_choices(pool, out, &longer, inner)?;
    }
    Ok(())
}

// The elements of each content.
fn elements_of_all<T: Listed>(pool: &mut Pool, contents: &[Noun]) -> Result<Vec<Vec<T>>, NoMemory>
    requires { All (Joins T.kind) contents.now }
    ensures { IfOk result (λ v. map (λ w. map T.atom w.items) v.items ≡ map (λ (a : Array). a.atoms) contents.now) }
{
    let mut lists = pool.fresh(contents.len())?;
    for content in contents {
        let elements = T::elements(pool, content)?;
        let Ok(()) = lists.push(elements) else {
            return Err(NoMemory);
        };
    }
    Ok(lists)
}

// The choices as lists.
fn lists_chosen<T: Stored + Listed>(
    pool: &mut Pool,
    contents: &[Noun],
    count: usize,
) -> Result<Vec<Noun>, NoMemory>
    requires { All (Joins T.kind) contents.now }
    ensures { IfOk result (λ v. v.items ≡ map (listed T.kind) (choices (map (λ (a : Array). a.atoms) contents.now))) }
{
    let lists = elements_of_all::<T>(pool, contents)?;
    let mut chosen = boxes(pool, count)?;
    append_choices(pool, &mut chosen, &[], &lists)?;
    Ok(chosen)
}

// The choices as lists of a kind.
fn lists_of_kind(
    pool: &mut Pool,
    kind: Kind,
    contents: &[Noun],
    count: usize,
) -> Result<Vec<Noun>, NoMemory>
    requires { All (Joins kind) contents.now }
    ensures { IfOk result (λ v. v.items ≡ map (listed kind) (choices (map (λ (a : Array). a.atoms) contents.now))) }
{
    match kind {
        Kind::Number => lists_chosen::<i64>(pool, contents, count),
        Kind::Character => lists_chosen::<u8>(pool, contents, count),
        Kind::Boxed => lists_chosen::<Noun>(pool, contents, count),
    }
}

// How many choices there are, within the limit.
fn count_choices(pool: &mut Pool, contents: &[Noun]) -> Result<Option<usize>, NoMemory>
    ensures frame { IfOk result (λ _. product (flat_map (λ (a : Array). a.shape) contents.now) ≡ length (choices (map (λ (a : Array). a.atoms) contents.now))) }
    ensures count { IfOk result (λ o. MatchOption o (4194304 < length (choices (map (λ (a : Array). a.atoms) contents.now))) (λ n. (n ≡ length (choices (map (λ (a : Array). a.atoms) contents.now))) × (n ≤ 4194304))) }
{
    let mut sizes = pool.fresh(contents.len())?;
    for content in contents {
        let _ = content.view();
        let Some(size) = size_within(content.axes()) else {
            unreachable!();
        };
        let Ok(()) = sizes.push(size) else {
            return Err(NoMemory);
        };
    }
    Ok(size_within(&sizes))
}

// The kind of an empty list of choices.
fn kind_of_none(kind: Kind) -> Kind
    ensures { result ≡ kind_of_none kind }
{
    match kind {
        Kind::Number => Kind::Number,
        Kind::Character => Kind::Character,
        Kind::Boxed => Kind::Number,
    }
}

// The kind of the choices' lists, where there are some.
fn kind_of_some(kind: Kind, contents: &[Noun]) -> Option<Kind>
    ensures value { MatchOption result (kind_of_some kind contents.now ≡ ErrValue DomainFault) (λ k. kind_of_some kind contents.now ≡ OkValue k) }
    ensures joins { IfSome result (λ k. All (Joins k) contents.now) }
{
    if contents.is_empty() {
        return Some(kind_of_none(kind));
    }
    joined_kind(contents)
}

// No boxes, in a shape.
fn no_boxes(pool: &mut Pool, shape: Shape) -> Result<Noun, Refusal>
    requires { product shape ≡ 0 }
    ensures { OrWanting (limited (record { kind = BoxedKind; shape = shape; atoms = [] })) result }
{
    let none = boxes(pool, 0)?;
    Noun::make(pool, shape, Atoms::Boxes(none))
}

// The lists of all choices in boxes.
fn boxes_of_choices(
    pool: &mut Pool,
    kind: Kind,
    contents: &[Noun],
    frame: Shape,
    count: usize,
) -> Result<Noun, Refusal>
    requires kinds { All (Joins kind) contents.now }
    requires frame { frame ≡ flat_map (λ (a : Array). a.shape) contents.now }
    requires many { product frame ≡ length (choices (map (λ (a : Array). a.atoms) contents.now)) }
    ensures { OrWanting (limited (boxes_of_choices contents.now (choices (map (λ (a : Array). a.atoms) contents.now)) kind)) result }
{
    let chosen = lists_of_kind(pool, kind, contents, count)?;
    Noun::make(pool, frame, Atoms::Boxes(chosen))
}

// The boxes of no choices.
fn no_choices(pool: &mut Pool, kind: Kind, contents: &[Noun]) -> Result<Noun, Refusal>
    requires frame { product (flat_map (λ (a : Array). a.shape) contents.now) ≡ 0 }
    requires none { length (choices (map (λ (a : Array). a.atoms) contents.now)) ≡ 0 }
    ensures { OrWanting (catalogue_of kind contents.now) result }
{
    let Ok(frame) = frame_of(contents) else {
        return Err(Refusal::Fault(Fault::Limit));
    };
    no_boxes(pool, frame)
}

// What more choices than there can be are.
fn refuse_choices(kind: Kind, contents: &[Noun]) -> Result<Noun, Refusal>
    requires { 4194304 < length (choices (map (λ (a : Array). a.atoms) contents.now)) }
    ensures { OrWanting (catalogue_of kind contents.now) result }
{
    match kind_of_some(kind, contents) {
        Some(_) => Err(Refusal::Fault(Fault::Limit)),
        None => Err(Refusal::Fault(Fault::Domain)),
    }
}

// The boxes of some choices.
fn some_choices(
    pool: &mut Pool,
    kind: Kind,
    contents: &[Noun],
    count: usize,
) -> Result<Noun, Refusal>
    requires frame { product (flat_map (λ (a : Array). a.shape) contents.now) ≡ count }
    requires some { 0 < count }
    requires count { count ≡ length (choices (map (λ (a : Array). a.atoms) contents.now)) }
    ensures { OrWanting (catalogue_of kind contents.now) result }
{
    let Some(joined) = kind_of_some(kind, contents) else {
        return Err(Refusal::Fault(Fault::Domain));
    };
    let Ok(frame) = frame_of(contents) else {
        return Err(Refusal::Fault(Fault::Limit));
    };
    boxes_of_choices(pool, joined, contents, frame, count)
}

// The boxes of all choices of one atom from each content.
fn catalogue_of(pool: &mut Pool, kind: Kind, contents: &[Noun]) -> Result<Noun, Refusal>
    ensures { OrWanting (catalogue_of kind contents.now) result }
{
    let count = count_choices(pool, contents)?;
    match count {
        None => refuse_choices(kind, contents),
        Some(n) => if n == 0 {
            no_choices(pool, kind, contents)
        } else {
            some_choices(pool, kind, contents, n)
        },
    }
}

/// `{ y`: boxes of all choices of one atom from each content.
pub fn catalogue(pool: &mut Pool, y: &Noun) -> Result<Noun, Refusal>
    ensures { OrWanting (catalogue y.now) result }
{
    let contents = index_nouns(pool, y)?;
    catalogue_of(pool, y.kind(), &contents)
}
