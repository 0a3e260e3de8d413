// Frames, and the nouns of results.
ghost use Rattle.std.specs.Prelude.{◌≡◌, ◌<◌, ◌*◌, ℕ, length, IfOk, List, Result as ResultValue};
ghost use Rattle.j_definitions.specs.Array.{Atom, IsNoun, product};
ghost use Rattle.j_definitions.specs.declared.Fault.{Fault as FaultValue};
ghost use Rattle.j_noun.specs.Viewed.{viewed};
ghost use Rattle.j_noun.specs.Held.{atoms_kept, AreBits};
ghost use Rattle.j_noun.specs.Refused.{OrWanting};
ghost use Rattle.j_loops.specs.Results.{IsFilled};
ghost use Rattle.j_kernels.specs.Scalars.{numbers_of};

use j_noun::{Atoms, Noun, Pool, Refusal, View};

/// How many in a row, of n, share each of `len` elements.
pub fn repeats(len: usize, n: usize) -> usize
    ensures { (q : ℕ) → len * q ≡ n → (len * result ≡ n) × (0 < n → result ≡ q) }
{
    if len == 0 { 0 } else { n / len }
}

/// How many atoms a noun has.
pub fn count(y: &Noun) -> usize
    ensures many { result ≡ length y.now.atoms }
    ensures noun { IsNoun y.now }
{
    match y.view() {
        View::Bits(a) => a.len(),
        View::Wholes(a) => a.len(),
        View::Bytes(a) => a.len(),
        View::Boxes(a) => a.len(),
    }
}

/// The noun of results in the shape of y.
pub fn shaped_like(
    pool: &mut Pool,
    y: &Noun,
    results: Result<Atoms, Refusal>,
) -> Result<Noun, Refusal>
    requires noun { IsNoun y.now }
    requires bits { IfOk results AreBits }
    requires many { IfOk results (λ a. length (atoms_kept a) ≡ product y.now.shape) }
    ensures { (q : ResultValue (List Atom) FaultValue) → IsFilled q results → OrWanting (numbers_of y.now.shape q) result }
{
    match results {
        Ok(results) => Noun::make(pool, y.shape(), results),
        Err(e) => Err(e),
    }
}
