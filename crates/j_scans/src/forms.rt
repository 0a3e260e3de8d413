// Which items the pieces of each form have.
ghost use Rattle.std.specs.Prelude.{◌≡◌, ◌<◌, ◌≤◌, [], length};
ghost use lib.ListN.{get_or};
ghost use Rattle.j_scans.specs.Kept.{listed, is_without, spanned};
ghost use Rattle.j_scans.specs.Spans.{IsSpan};

use crate::copying::Span;
use crate::runs::{run_at, run_count};

/// What pieces are made by.
#[derive(Clone, Copy)]
pub enum Form {
    Prefixes,
    Suffixes,
    Infixes(i64),
    Outfixes(i64),
}

/// Whether a piece is what a span leaves out.
pub fn is_without(form: Form) -> bool
    ensures { result ≡ is_without form }
{
    match form {
        Form::Prefixes | Form::Suffixes | Form::Infixes(_) => false,
        Form::Outfixes(_) => true,
    }
}

/// How many pieces so many items have.
pub fn count_of(form: Form, items: usize) -> usize
    requires { items ≤ 4194304 }
    ensures { result ≡ length (listed form items) }
{
    match form {
        Form::Prefixes => items,
        Form::Suffixes => items,
        Form::Infixes(n) => run_count(n, items),
        Form::Outfixes(n) => run_count(n, items),
    }
}

/// The span that piece k has, or leaves out.
pub fn span_of(form: Form, items: usize, k: usize) -> Span
    requires few { items ≤ 4194304 }
    requires place { k < length (listed form items) }
    ensures span { IsSpan items result }
    ensures places { get_or (listed form items) k [] ≡ spanned (is_without form) items result }
{
    match form {
        Form::Prefixes => Span {
            start: 0,
            end: k + 1,
        },
        Form::Suffixes => Span {
            start: k,
            end: items,
        },
        Form::Infixes(n) => run_at(n, items, k),
        Form::Outfixes(n) => run_at(n, items, k),
    }
}
