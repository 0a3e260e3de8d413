// The pieces of prefixes, suffixes, infixes and outfixes.
ghost use Rattle.std.specs.Prelude.{◌≡◌, ◌<◌, ◌≤◌, ℤ, [], length, MatchOption, IfOk, Err as ErrValue};
ghost use lib.ListN.{get_or};
ghost use Rattle.j_definitions.specs.Array.{number, tally};
ghost use Rattle.j_definitions.specs.Cells.{atom_at};
ghost use Rattle.j_definitions.specs.declared.Fault.TheVariants.{Domain};
ghost use Rattle.j_scans.specs.Pieced.{Pieced};
ghost use Rattle.j_scans.specs.Scans.{prefixes, suffixes, infixes, outfixes, by_number};

use crate::copying::{Span, items_in, items_out};
use crate::forms::{Form, count_of, is_without, span_of};
use j_noun::{Fault, NoMemory, Noun, Pool, View};
use std::marker::Model;

/// The pieces of a noun, which are made one at a time.
#[derive(Drop)]
pub struct Pieces<'a> {
    items: &'a Noun,
    form: Form,
}

impl<'a> Model for Pieces<'a> {
    ghost use Rattle.j_scans.specs.Pieced.{Pieced, pieced_code};
    ghost use Rattle.j_scans.specs.Kept.{pieced};

    ghost Value = { Pieced };

    ghost coded = { pieced_code };

    ghost view = { λ p. pieced p.form p.items.now };
}

/// For each number of items from 1 on that many first items.
pub fn prefixes(y: &Noun) -> Pieces<'_>
    ensures { result ≡ prefixes y.now }
{
    Pieces {
        items: y,
        form: Form::Prefixes,
    }
}

/// For each item the items from it on.
pub fn suffixes(y: &Noun) -> Pieces<'_>
    ensures { result ≡ suffixes y.now }
{
    Pieces {
        items: y,
        form: Form::Suffixes,
    }
}

// The number of an atom, or none where it is no number.
fn number_of(n: &Noun) -> Option<i64>
    requires { n.now.shape ≡ [] }
    ensures { MatchOption result ((f : ℤ → Pieced) → by_number (atom_at n.now.atoms 0) f ≡ ErrValue Domain) (λ z. atom_at n.now.atoms 0 ≡ number z) }
{
    match n.view() {
        View::Wholes(v) => Some(v[0]),
        View::Bits(v) => Some(i64::from(v[0])),
        View::Bytes(_) => None,
        View::Boxes(_) => None,
    }
}

/// The runs of n items, or of -n items one after the other where n is negative.
pub fn infixes<'a>(n: &Noun, y: &'a Noun) -> Result<Pieces<'a>, Fault>
    requires { n.now.shape ≡ [] }
    ensures { result ≡ infixes n.now y.now }
{
    match number_of(n) {
        None => Err(Fault::Domain),
        Some(n) => Ok(Pieces {
            items: y,
            form: Form::Infixes(n),
        }),
    }
}

/// The items without each of these runs.
pub fn outfixes<'a>(n: &Noun, y: &'a Noun) -> Result<Pieces<'a>, Fault>
    requires { n.now.shape ≡ [] }
    ensures { result ≡ outfixes n.now y.now }
{
    match number_of(n) {
        None => Err(Fault::Domain),
        Some(n) => Ok(Pieces {
            items: y,
            form: Form::Outfixes(n),
        }),
    }
}

// The number of items, which is within the limit of an axis.
fn item_count(y: &Noun) -> usize
    ensures value { result ≡ tally y.now.shape }
    ensures few { result ≤ 4194304 }
{
    let _ = y.view();
    y.tally()
}

impl<'a> Pieces<'a> {
    /// How many pieces there are.
    pub fn count(&self) -> usize
        ensures { result ≡ length self.now.pieces }
    {
        count_of(self.form, item_count(self.items))
    }

    /// Piece k.
    pub fn piece(&self, pool: &mut Pool, k: usize) -> Result<Noun, NoMemory>
        requires { k < length self.now.pieces }
        ensures { IfOk result (λ a. a ≡ get_or self.now.pieces k self.now.no_items) }
    {
        let span = span_of(self.form, item_count(self.items), k);
        if is_without(self.form) {
            return items_out(pool, self.items, span);
        }
        items_in(pool, self.items, span)
    }

    /// The noun without items that stands for a piece where there is none.
    pub fn no_items(&self, pool: &mut Pool) -> Result<Noun, NoMemory>
        ensures { IfOk result (λ a. a ≡ self.now.no_items) }
    {
        items_in(pool, self.items, Span { start: 0, end: 0 })
    }
}
