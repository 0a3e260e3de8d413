// A noun with others at some places.
ghost use Rattle.std.specs.Prelude.{◌≡◌, ◌<◌, ◌≤◌, suc, Ok as OkValue, ◌++◌, [], ◌∷◌, ◌==◌, length, map, IfOk, IfSome};
ghost use Rattle.std.specs.List.{All, ends_with};
ghost use Rattle.j_definitions.specs.Limits.{limited};
ghost use Rattle.j_noun.specs.Refused.{OrWanting, OrWantingAs};
ghost use Rattle.j_rank.specs.Assembly.{joined_kind};
ghost use Rattle.j_rank.specs.Joined.{Joins};
ghost use Rattle.j_select.specs.Amending.{places_taken, amended, kinds_among, amend};
ghost use Rattle.j_select.specs.Joining.{two_kinds};
ghost use Rattle.j_indices.specs.Numbers.{whole_numbers, magnitudes};
ghost use Rattle.j_definitions.specs.declared.Kind.TheVariants.{Number as NumberKind};

use crate::putting::amended_atoms;
use crate::reaching::{all_places, axes_taken, taken};
use j_indices::{Numbers, Whole, numbers_of, places_of};
use j_noun::{Fault, Kind, NoMemory, Noun, Pool, Refusal, View};
use j_rank::{has_no_atoms, is_same};

// The kind that two kinds join to, where each noun has atoms or is bare.
fn two_kinds(j: Kind, k: Kind, j_is_bare: bool, k_is_bare: bool) -> Option<Kind>
    ensures { result ≡ two_kinds j k j_is_bare k_is_bare }
{
    if j_is_bare {
        return if k_is_bare { Some(j) } else { Some(k) };
    }
    if k_is_bare {
        return Some(j);
    }
    if is_same(j, k) { Some(j) } else { None }
}

// The kind of y with x in it.
fn joined_kind(x: &Noun, y: &Noun) -> Option<Kind>
    ensures value { result ≡ joined_kind (y.now ∷ x.now ∷ []) }
    ensures joins { IfSome result (λ k. Joins k x.now × Joins k y.now) }
{
    let y_is_bare = has_no_atoms(y);
    let x_is_bare = has_no_atoms(x);
    two_kinds(y.kind(), x.kind(), y_is_bare, x_is_bare)
}

// Which fault comes first, where the kinds join or don't.
fn kinds_among(kind: Option<Kind>, fault: Fault) -> Fault
    ensures { result ≡ kinds_among kind fault }
{
    match kind {
        Some(_) => fault,
        None => match fault {
            Fault::Nonce => Fault::Nonce,
            _ => Fault::Domain,
        },
    }
}

// Whether axes end those of two shapes joined.
fn ends(pool: &mut Pool, front: &[usize], back: &[usize], axes: &[usize]) -> Result<bool, NoMemory>
    requires few { length front.now ≤ 32 }
    requires fewer { length back.now ≤ 32 }
    ensures { IfOk result (λ b. b ≡ ends_with ◌==◌ (front.now ++ back.now) axes.now) }
{
    let mut whole = pool.fresh(front.len() + back.len())?;
    let Ok(()) = whole.extend_from_slice(front) else {
        return Err(NoMemory);
    };
    let Ok(()) = whole.extend_from_slice(back) else {
        return Err(NoMemory);
    };
    let is_end = whole.ends_with(axes);
    Ok(is_end)
}

// The magnitudes of numbers.
fn magnitudes_of<N: Whole>(pool: &mut Pool, numbers: &[N]) -> Result<Vec<usize>, NoMemory>
    ensures { IfOk result (λ v. v.items ≡ magnitudes (map N.value numbers.now)) }
{
    let mut out = pool.fresh(numbers.len())?;
    for n in numbers {
        let Ok(()) = out.push(n.magnitude()) else {
            return Err(NoMemory);
        };
    }
    Ok(out)
}

// The places that `m { y` takes, from the noun that it is.
fn places_found(pool: &mut Pool, m: &Noun, y: &Noun) -> Result<Vec<usize>, Refusal>
    ensures { OrWantingAs (λ v. v.items) (places_taken m.now y.now.shape) result }
{
    let all = all_places(pool, y)?;
    let found = taken(pool, m, &all)?;
    match numbers_of(&found) {
        None => Err(Refusal::Fault(Fault::Domain)),
        Some(Numbers::Wholes(v)) => Ok(magnitudes_of(pool, v)?),
        Some(Numbers::Bits(v)) => Ok(magnitudes_of(pool, v)?),
    }
}

// The places behind these.
fn next_places(pool: &mut Pool, places: &[usize]) -> Result<Vec<usize>, Refusal>
    requires { All (λ k. k < 4294967296) places.now }
    ensures { OrWantingAs (λ v. v.items) (OkValue (map (λ k. suc k) places.now)) result }
{
    let mut out = pool.fresh(places.len())?;
    for k in places {
        let next = *k + 1;
        let Ok(()) = out.push(next) else {
            return Err(Refusal::NoMemory);
        };
    }
    Ok(out)
}

// The places that numbers take of a list.
fn places_in_list<N: Whole>(
    pool: &mut Pool,
    m: &Noun,
    indices: &[N],
    y: &Noun,
) -> Result<Vec<usize>, Refusal>
    requires kind { NumberKind ≡ m.now.kind }
    requires numbers { whole_numbers m.now.atoms ≡ OkValue (map N.value indices.now) }
    requires some { 0 < length m.now.atoms }
    requires many { length indices.now ≡ length m.now.atoms }
    requires list { length y.now.shape ≤ 1 }
    ensures { OrWantingAs (λ v. v.items) (places_taken m.now y.now.shape) result }
{
    let _ = m.view();
    let _ = y.view();
    match places_of(pool, y.tally(), indices) {
        Ok(places) => next_places(pool, &places),
        Err(e) => Err(e),
    }
}

// The places that `m { y` takes, counted from 1.
fn places_taken(pool: &mut Pool, m: &Noun, y: &Noun) -> Result<Vec<usize>, Refusal>
    ensures { OrWantingAs (λ v. v.items) (places_taken m.now y.now.shape) result }
{
    let is_bare = has_no_atoms(m);
    if is_bare {
        return places_found(pool, m, y);
    }
    if y.axes().len() > 1 {
        return places_found(pool, m, y);
    }
    match m.view() {
        View::Wholes(v) => places_in_list(pool, m, v, y),
        View::Bits(v) => places_in_list(pool, m, v, y),
        View::Bytes(_) => places_found(pool, m, y),
        View::Boxes(_) => places_found(pool, m, y),
    }
}

// y with the atoms of x at places.
fn amended(
    pool: &mut Pool,
    kind: Kind,
    x: &Noun,
    y: &Noun,
    places: &[usize],
) -> Result<Noun, Refusal>
    requires left { Joins kind x.now }
    requires right { Joins kind y.now }
    ensures { OrWanting (limited (amended kind x.now y.now places.now)) result }
{
    let _ = y.view();
    let atoms = amended_atoms(pool, kind, x, y, places)?;
    Noun::make(pool, y.shape(), atoms)
}

/// `x (m}) y`: y with x at the places that `m { y` takes (the definition is specs/Amending's `amend`).
pub fn amend(pool: &mut Pool, m: &Noun, x: &Noun, y: &Noun) -> Result<Noun, Refusal>
    ensures { OrWanting (amend m.now x.now y.now) result }
{
    let kind = joined_kind(x, y);
    let axes = match axes_taken(pool, m, y) {
        Ok(axes) => axes,
        Err(Refusal::Fault(fault)) => return Err(Refusal::Fault(kinds_among(kind, fault))),
        Err(Refusal::NoMemory) => return Err(Refusal::NoMemory),
    };
    let Some(kind) = kind else {
        return Err(Refusal::Fault(Fault::Domain));
    };
    let is_end = ends(pool, m.axes(), axes.axes(), x.axes())?;
    if !is_end {
        return Err(Refusal::Fault(Fault::Length));
    }
    let places = places_taken(pool, m, y)?;
    amended(pool, kind, x, y, &places)
}
