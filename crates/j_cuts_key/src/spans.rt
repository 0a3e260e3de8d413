// From where up to where a cut goes.
ghost use Rattle.std.specs.Prelude.{◌≡◌, ◌<◌, ◌≤◌, ◌+◌, [], length};
ghost use lib.ListN.{get_or};
ghost use Rattle.j_scans.specs.Spans.{IsSpan, places_in};
ghost use Rattle.j_cuts_key.specs.Cuts.{cut_places, begun, ended};
ghost use Rattle.j_cuts_key.specs.Kept.{IsRising, after_fret};

use j_scans::Span;
use j_search::CutForm;

// The fret after fret k, or the end.
#[tactic(auto, using(crate::proofs::Rising::next_there, crate::proofs::Rising::next_past))]
fn next_fret(frets: &[usize], items: usize, k: usize) -> usize
    requires { k < length frets.now }
    ensures { result ≡ get_or frets.now (k + 1) items }
{
    if k + 1 < frets.len() {
        frets[k + 1]
    } else {
        items
    }
}

// The place after the fret before fret k, or the beginning.
#[tactic(auto, using(crate::proofs::Rising::after_some, crate::proofs::Rising::after_none))]
fn after_fret(frets: &[usize], items: usize, k: usize) -> usize
    requires rising { IsRising 0 items frets.now }
    requires few { items ≤ 4194304 }
    requires place { k < length frets.now }
    ensures { result ≡ after_fret 0 frets.now k }
{
    if k > 0 { frets[k - 1] + 1 } else { 0 }
}

// From fret k up to the next one, or up to the end.
fn from_fret(frets: &[usize], items: usize, k: usize) -> Span
    requires rising { IsRising 0 items frets.now }
    requires place { k < length frets.now }
    ensures places { get_or (begun items frets.now) k [] ≡ places_in result }
    ensures some { result.start < result.end }
    ensures inside { result.end ≤ items }
{
    Span {
        start: frets[k],
        end: next_fret(frets, items, k),
    }
}

// From after the fret before k, or from the beginning, up to and with fret k.
fn to_fret(frets: &[usize], items: usize, k: usize) -> Span
    requires rising { IsRising 0 items frets.now }
    requires few { items ≤ 4194304 }
    requires place { k < length frets.now }
    ensures places { get_or (ended 0 frets.now) k [] ≡ places_in result }
    ensures some { result.start < result.end }
    ensures inside { result.end ≤ items }
{
    Span {
        start: after_fret(frets, items, k),
        end: frets[k] + 1,
    }
}

/// The items of cut k.
pub fn cut_span(form: CutForm, frets: &[usize], items: usize, k: usize) -> Span
    requires rising { IsRising 0 items frets.now }
    requires few { items ≤ 4194304 }
    requires place { k < length frets.now }
    ensures span { IsSpan items result }
    ensures places { get_or (cut_places form items frets.now) k [] ≡ places_in result }
{
    match form {
        CutForm::Begin => from_fret(frets, items, k),
        CutForm::BeginDrop => {
            let whole = from_fret(frets, items, k);
            Span {
                start: whole.start + 1,
                end: whole.end,
            }
        }
        CutForm::End => to_fret(frets, items, k),
        CutForm::EndDrop => {
            let whole = to_fret(frets, items, k);
            Span {
                start: whole.start,
                end: whole.end - 1,
            }
        }
    }
}
