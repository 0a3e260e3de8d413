// The pieces of oblique lines, keys and cuts.
ghost use Rattle.std.specs.Prelude.{◌≡◌, ◌<◌, ◌≤◌, ◌∷◌, [], length, take, drop, IfOk, Ok as OkValue};
ghost use lib.ListN.{get_or};
ghost use Rattle.j_definitions.specs.Array.{product, tally};
ghost use Rattle.std.specs.List.{All, flat_map};
ghost use Rattle.j_definitions.specs.Items.{part};
ghost use Rattle.j_noun.specs.Refused.{OrWanting};
ghost use Rattle.j_scans.specs.Pieced.{items_at, pieces_at};
ghost use Rattle.j_cuts_key.specs.Obliques.{obliques};
ghost use Rattle.j_cuts_key.specs.Keys.{keyed};
ghost use Rattle.j_cuts_key.specs.Cuts.{cuts, cuts_by, pieces_between};
ghost use Rattle.j_cuts_key.specs.Kept.{IsRising, AreKept, linked};

use crate::frets::{frets, frets_by};
use crate::line_places::{columns, line, line_count, rows};
use crate::lines::{Lines, Links};
use crate::linking::{class_places, links};
use crate::spans::cut_span;
use j_indices::cells_at;
use j_noun::{Fault, NoMemory, Noun, Pool, Refusal};
use j_rank::shape_of;
use j_scans::{Span, items_in};
use j_search::{CutForm, first_places, own_places};
use std::marker::Model;

/// The pieces of a noun, which are made one at a time.
#[derive(Drop)]
pub struct Pieces<'a> {
    items: &'a Noun,
    lines: Lines,
}

impl<'a> Model for Pieces<'a> {
    ghost use Rattle.j_definitions.specs.Array.{tally};
    ghost use Rattle.j_scans.specs.Pieced.{Pieced, pieced_code};
    ghost use Rattle.j_cuts_key.specs.Kept.{pieced, IsKept};

    ghost Value = { Pieced };

    ghost coded = { pieced_code };

    ghost view = { λ p. pieced p.lines p.items.now };

    ghost invariant = { λ p. IsKept p.lines (tally p.items.now.shape) };
}

/// For each sum of row and column the items there.
pub fn obliques(y: &Noun) -> Pieces<'_>
    ensures { result ≡ obliques y.now }
{
    Pieces {
        items: y,
        lines: Lines::Obliques,
    }
}

/// The pieces between the items that match the first, or the last.
pub fn cuts<'a>(pool: &mut Pool, form: CutForm, y: &'a Noun) -> Result<Pieces<'a>, Refusal>
    ensures { OrWanting (OkValue (cuts form y.now)) result }
{
    let places = frets(pool, form, y)?;
    Ok(Pieces {
        items: y,
        lines: Lines::Cuts(form, places),
    })
}

/// The pieces between the places at which x is 1.
pub fn cuts_by<'a>(
    pool: &mut Pool,
    form: CutForm,
    x: &Noun,
    y: &'a Noun,
) -> Result<Pieces<'a>, Refusal>
    requires { length x.now.shape ≤ 1 }
    ensures { OrWanting (cuts_by form x.now y.now) result }
{
    let places = frets_by(pool, x, y.tally())?;
    Ok(Pieces {
        items: y,
        lines: Lines::Cuts(form, places),
    })
}

/// For each item of the nub of x the items of y where it stands in x.
pub fn keyed<'a>(pool: &mut Pool, x: &Noun, y: &'a Noun) -> Result<Pieces<'a>, Refusal>
    ensures { OrWanting (keyed x.now y.now) result }
{
    if x.tally() != y.tally() {
        return Err(Refusal::Fault(Fault::Length));
    }
    let classes = first_places(pool, x)?;
    let firsts = own_places(pool, &classes)?;
    let (heads, next) = links(pool, &classes)?;
    let keys = Links {
        classes,
        firsts,
        heads,
        next,
    };
    Ok(Pieces {
        items: y,
        lines: Lines::Keys(keys),
    })
}

// The cells behind n leading axes, as items, at some places.
fn items_picked(pool: &mut Pool, y: &Noun, n: usize, places: &[usize]) -> Result<Noun, NoMemory>
    requires { All (λ k. k < product (take n y.now.shape)) places.now }
    ensures { IfOk result (λ a. a ≡ record { kind = y.now.kind; shape = length places.now ∷ drop n y.now.shape; atoms = flat_map (part (product (drop n y.now.shape)) y.now.atoms) places.now }) }
{
    match cells_at(pool, shape_of(&[places.len()]), n, y, places) {
        Ok(piece) => Ok(piece),
        Err(_) => Err(NoMemory),
    }
}

// The items on oblique line k.
fn oblique(pool: &mut Pool, y: &Noun, k: usize) -> Result<Noun, NoMemory>
    requires { k < length (obliques y.now).pieces }
    ensures { IfOk result (λ a. a ≡ get_or (obliques y.now).pieces k (obliques y.now).no_items) }
{
    let places = line(pool, rows(y), columns(y), k)?;
    items_picked(pool, y, 2, &places)
}

// The items of cut k.
fn cut(
    pool: &mut Pool,
    form: CutForm,
    frets: &[usize],
    y: &Noun,
    k: usize,
) -> Result<Noun, NoMemory>
    requires rising { IsRising 0 (tally y.now.shape) frets.now }
    requires place { k < length frets.now }
    ensures { IfOk result (λ a. a ≡ get_or (pieces_between form frets.now y.now).pieces k (pieces_between form frets.now y.now).no_items) }
{
    let span = cut_span(form, frets, rows(y), k);
    items_in(pool, y, span)
}

// The items of key k.
fn key(pool: &mut Pool, keys: &Links, y: &Noun, k: usize) -> Result<Noun, NoMemory>
    requires links { AreKept keys.now (tally y.now.shape) }
    requires place { k < length keys.now.firsts.items }
    ensures { IfOk result (λ a. a ≡ get_or (pieces_at y.now (linked keys.now.classes.items keys.now.firsts.items)).pieces k (items_at y.now [])) }
{
    let places = class_places(pool, keys, keys.firsts[k])?;
    items_picked(pool, y, 1, &places)
}

impl<'a> Pieces<'a> {
    /// How many pieces there are.
    pub fn count(&self) -> usize
        ensures { result ≡ length self.now.pieces }
    {
        match &self.lines {
            Lines::Obliques => line_count(rows(self.items), columns(self.items)),
            Lines::Cuts(_, places) => places.len(),
            Lines::Keys(keys) => keys.firsts.len(),
        }
    }

    /// Piece k.
    pub fn piece(&self, pool: &mut Pool, k: usize) -> Result<Noun, NoMemory>
        requires { k < length self.now.pieces }
        ensures { IfOk result (λ a. a ≡ get_or self.now.pieces k self.now.no_items) }
    {
        match &self.lines {
            Lines::Obliques => oblique(pool, self.items, k),
            Lines::Cuts(form, places) => cut(pool, *form, places, self.items, k),
            Lines::Keys(keys) => key(pool, keys, self.items, k),
        }
    }

    /// The noun without items that stands for a piece where there is none.
    pub fn no_items(&self, pool: &mut Pool) -> Result<Noun, NoMemory>
        ensures { IfOk result (λ a. a ≡ self.now.no_items) }
    {
        items_in(pool, self.items, Span { start: 0, end: 0 })
    }
}
