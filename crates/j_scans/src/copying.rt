// Items from one place up to another, as a noun.
ghost use Rattle.std.specs.Prelude.{◌≡◌, ◌<◌, ◌≤◌, ◌+◌, ◌*◌, ◌++◌, ◌∷◌, length, drop, IfOk, IfSome};
ghost use Rattle.j_definitions.specs.Array.{tally, IsNoun};
ghost use Rattle.j_definitions.specs.Items.{item_size};
ghost use Rattle.j_noun.specs.Held.{AreAtoms};
ghost use Rattle.j_noun.specs.Viewed.{viewed, kind_viewed, ShowsBits};
ghost use Rattle.j_scans.specs.Pieced.{items_at, parts_at};
ghost use Rattle.j_scans.specs.Spans.{places_in, places_out, IsSpan};

use j_noun::{Atoms, NoMemory, Noun, Pool, Shape, View};
use j_rank::{Stored, extended, shape_of, size_within};

/// The places from one up to another.
#[derive(Clone, Copy)]
pub struct Span {
    pub start: usize,
    pub end: usize,
}

// The elements of the items of a span.
fn stretch<T>(all: &[T], span: Span, size: usize) -> &[T]
    requires ordered { span.start ≤ span.end }
    requires inside { span.end * size ≤ length all.now }
    ensures { result.now ≡ parts_at size all.now (places_in span) }
{
    &all[span.start * size..span.end * size]
}

// The elements of two spans.
fn both<T: Stored>(
    pool: &mut Pool,
    all: &[T],
    front: Span,
    back: Span,
    size: usize,
) -> Result<Vec<T>, NoMemory>
    requires front { front.start ≤ front.end }
    requires front_inside { front.end * size ≤ length all.now }
    requires back { back.start ≤ back.end }
    requires back_inside { back.end * size ≤ length all.now }
    ensures { IfOk result (λ v. v.items ≡ parts_at size all.now (places_in front ++ places_in back)) }
{
    let first = stretch(all, front, size);
    let last = stretch(all, back, size);
    let mut out = T::buffer(pool, first.len().saturating_add(last.len()))?;
    T::append(&mut out, first)?;
    T::append(&mut out, last)?;
    Ok(out)
}

// The atoms of two spans.
fn both_of(
    pool: &mut Pool,
    y: View<'_>,
    front: Span,
    back: Span,
    size: usize,
) -> Result<Atoms, NoMemory>
    requires bits { ShowsBits y }
    requires front { front.start ≤ front.end }
    requires front_inside { front.end * size ≤ length (viewed y) }
    requires back { back.start ≤ back.end }
    requires back_inside { back.end * size ≤ length (viewed y) }
    ensures { IfOk result (λ a. AreAtoms a (kind_viewed y.entry) (parts_at size (viewed y.entry) (places_in front ++ places_in back))) }
{
    match y {
        View::Wholes(v) => Ok(Atoms::Wholes(both(pool, v, front, back, size)?)),
        View::Bits(v) => Ok(Atoms::Bits(both(pool, v, front, back, size)?)),
        View::Bytes(v) => Ok(Atoms::Bytes(both(pool, v, front, back, size)?)),
        View::Boxes(v) => Ok(Atoms::Boxes(both(pool, v, front, back, size)?)),
    }
}

// The axes of an item; an atom counts as a list of one item.
fn item_axes(y: &Noun) -> &[usize]
    ensures value { result.now ≡ drop 1 y.now.shape }
    ensures few { length result.now ≤ 31 }
{
    match y.axes() {
        [] => &[],
        [_, own @ ..] => own,
    }
}

// An axis before others.
fn leading(n: usize, own: &[usize]) -> Shape
    requires { length own.now ≤ 31 }
    ensures { result ≡ n ∷ own.now }
{
    match extended(shape_of(&[n]), own) {
        Ok(shape) => shape,
        Err(_) => unreachable!(),
    }
}

// How many atoms an item has, where there are items.
fn atoms_an_item(y: &Noun) -> usize
    ensures value { 0 < tally y.now.shape → result ≡ item_size y.now.shape }
    ensures all { tally y.now.shape * result ≡ length y.now.atoms }
    ensures noun { IsNoun y.now }
{
    let _ = y.view();
    match size_within(item_axes(y)) {
        Some(size) => size,
        None => 0,
    }
}

// The items of two spans.
fn items_of(pool: &mut Pool, y: &Noun, front: Span, back: Span) -> Result<Noun, NoMemory>
    requires front { IsSpan (tally y.now.shape) front }
    requires back { IsSpan (tally y.now.shape) back }
    requires parted { front.end ≤ back.start }
    ensures { IfOk result (λ a. a ≡ items_at y.now (places_in front ++ places_in back)) }
{
    let size = atoms_an_item(y);
    let atoms = both_of(pool, y.view(), front, back, size)?;
    let count = (front.end - front.start) + (back.end - back.start);
    match Noun::make(pool, leading(count, item_axes(y)), atoms) {
        Ok(piece) => Ok(piece),
        Err(_) => Err(NoMemory),
    }
}

// The characters of a span of a list, where the piece takes no buffer: no shape is made for it.
fn short_piece(y: &Noun, span: Span) -> Option<Noun>
    requires { IsSpan (tally y.now.shape) span }
    ensures { IfSome result (λ a. a ≡ items_at y.now (places_in span)) }
{
    let View::Bytes(all) = y.view() else {
        return None;
    };
    match y.axes() {
        [_] => Noun::short_text(stretch(all, span, 1)),
        _ => None,
    }
}

/// The items within a span.
pub fn items_in(pool: &mut Pool, y: &Noun, span: Span) -> Result<Noun, NoMemory>
    requires { IsSpan (tally y.now.shape) span }
    ensures { IfOk result (λ a. a ≡ items_at y.now (places_in span)) }
{
    if let Some(piece) = short_piece(y, span) {
        return Ok(piece);
    }
    let none = Span {
        start: span.end,
        end: span.end,
    };
    items_of(pool, y, span, none)
}

/// The items without those within a span.
pub fn items_out(pool: &mut Pool, y: &Noun, span: Span) -> Result<Noun, NoMemory>
    requires { IsSpan (tally y.now.shape) span }
    ensures { IfOk result (λ a. a ≡ items_at y.now (places_out (tally y.now.shape) span)) }
{
    let front = Span {
        start: 0,
        end: span.start,
    };
    let back = Span {
        start: span.end,
        end: y.tally(),
    };
    items_of(pool, y, front, back)
}
