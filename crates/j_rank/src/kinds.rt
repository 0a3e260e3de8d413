// The kind of results.
ghost use Rattle.std.specs.Prelude.{◌≡◌, ◌<◌, nat_eq, length, IfSome};
ghost use Rattle.std.specs.List.{All, list_all};
ghost use Rattle.j_rank.specs.Joined.{first_of, Joins};
ghost use Rattle.j_rank.specs.Assembly.{same_kind, kinds_with_atoms, joined_kind};

use j_noun::{Kind, Noun, View};

/// Whether two kinds are the same.
pub fn is_same(a: Kind, b: Kind) -> bool
    ensures { result ≡ same_kind a b }
{
    match a {
        Kind::Number => matches!(b, Kind::Number),
        Kind::Character => matches!(b, Kind::Character),
        Kind::Boxed => matches!(b, Kind::Boxed),
    }
}

/// Whether a noun has no atoms.
pub fn has_no_atoms(y: &Noun) -> bool
    ensures { result ≡ nat_eq (length y.now.atoms) 0 }
{
    match y.view() {
        View::Wholes(v) => v.is_empty(),
        View::Bits(v) => v.is_empty(),
        View::Bytes(v) => v.is_empty(),
        View::Boxes(v) => v.is_empty(),
    }
}

// The kind of the first result that has atoms, else of the first.
fn first_kind(results: &[Noun]) -> Kind
    requires { 0 < length results.now }
    ensures { result ≡ first_of (kinds_with_atoms results.now) results.now }
{
    for r in results {
        if !has_no_atoms(r) {
            return r.kind();
        }
    }
    results[0].kind()
}

// Whether all results that have atoms have that kind.
fn are_of(kind: Kind, results: &[Noun]) -> bool
    ensures { result ≡ list_all (same_kind kind) (kinds_with_atoms results.now) }
{
    for r in results {
        if !has_no_atoms(r) && !is_same(kind, r.kind()) {
            return false;
        }
    }
    true
}

/// The kind of all results that have atoms, and where none has any that of the first.
pub fn joined_kind(results: &[Noun]) -> Option<Kind>
    requires { 0 < length results.now }
    ensures value { result ≡ joined_kind results.now }
    ensures each { IfSome result (λ k. All (Joins k) results.now) }
{
    let kind = first_kind(results);
    if are_of(kind, results) {
        Some(kind)
    } else {
        None
    }
}
