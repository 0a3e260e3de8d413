// Verbs on nouns that are words.
ghost use Rattle.j_noun.specs.Refused.{OrWanting};
ghost use Rattle.std.specs.Prelude.{◌≡◌, ◌<◌, ◌≤◌, length, IfErr, IfOk};
ghost use Rattle.j_joining.specs.Joining as joining;
ghost use Rattle.j_places.specs.AxisPlaces as places;
ghost use Rattle.j_reshaping.specs.Axes as axes;
ghost use Rattle.j_reshaping.specs.Reshaping as reshaping;
ghost use Rattle.j_indices.specs.Counting as counting;
ghost use Rattle.j_indices.specs.Indexing as indexing;
ghost use Rattle.j_indices.specs.Selecting as selecting;
ghost use Rattle.j_verbs.specs.Calls.{of_one, of_two, up_to};

use crate::word_forms::word_forms;
use j_display as display;
use j_insert as insertion;
use j_noun::{Fault, Noun, Pool, Refusal};
use j_search as search;
use j_select as selection;
use j_struct_verbs as structure;

/// A verb on one noun.
#[derive(Clone, Copy, PartialEq, Eq, Debug)]
pub enum Monad {
    ShapeOf,
    TallyOf,
    Ravel,
    RavelItems,
    Itemize,
    Reverse,
    Transpose,
    Head,
    Tail,
    Behead,
    Curtail,
    Integers,
    StepsAround,
    IndicesOfOnes,
    Nub,
    NubSieve,
    SelfClassify,
    GradeUp,
    GradeDown,
    BaseTwo,
    AntibaseTwo,
    Boxed,
    Opened,
    Raze,
    Catalogue,
    WordForms,
    Format,
}

/// A verb on two nouns.
#[derive(Clone, Copy, PartialEq, Eq, Debug)]
pub enum Dyad {
    Reshape,
    Append,
    Stitch,
    Laminate,
    Rotate,
    TransposeBy,
    Take,
    DropItems,
    Copy,
    From,
    IndexOf,
    LastIndexOf,
    Member,
    Less,
    Match,
    SortUp,
    SortDown,
    Base,
    Antibase,
    Link,
}

// Whether a cell has at most so many axes, as its verb's rank makes it.
fn up_to(n: usize, y: &Noun) -> Result<(), Fault>
    ensures ok { IfOk result (λ _. length y.now.shape ≤ n) }
    ensures err { IfErr result (λ e. (e ≡ Fault.Rank) × (n < length y.now.shape)) }
{
    let _ = y.view();
    if y.axes().len() <= n {
        Ok(())
    } else {
        Err(Fault::Rank)
    }
}

fn integers(pool: &mut Pool, y: &Noun) -> Result<Noun, Refusal>
    ensures { OrWanting (up_to 1 y.now (counting.integers y.now)) result }
{
    up_to(1, y)?;
    selection::integers(pool, y)
}

fn steps_around(pool: &mut Pool, y: &Noun) -> Result<Noun, Refusal>
    ensures { OrWanting (up_to 0 y.now (counting.steps_around y.now)) result }
{
    up_to(0, y)?;
    selection::steps_around(pool, y)
}

fn indices_of_ones(pool: &mut Pool, y: &Noun) -> Result<Noun, Refusal>
    ensures { OrWanting (up_to 1 y.now (counting.indices_of_ones y.now)) result }
{
    up_to(1, y)?;
    selection::indices_of_ones(pool, y)
}

fn opened(pool: &mut Pool, y: &Noun) -> Result<Noun, Refusal>
    ensures { OrWanting (up_to 0 y.now (joining.content y.now)) result }
{
    up_to(0, y)?;
    structure::opened(pool, y)
}

fn copy(pool: &mut Pool, x: &Noun, y: &Noun) -> Result<Noun, Refusal>
    ensures { OrWanting (up_to 1 x.now (selecting.copy x.now y.now)) result }
{
    up_to(1, x)?;
    selection::copy(pool, x, y)
}

fn rotate(pool: &mut Pool, x: &Noun, y: &Noun) -> Result<Noun, Refusal>
    ensures { OrWanting (up_to 1 x.now (places.rotate_axes x.now y.now)) result }
{
    up_to(1, x)?;
    structure::rotate(pool, x, y)
}

fn take(pool: &mut Pool, x: &Noun, y: &Noun) -> Result<Noun, Refusal>
    ensures { OrWanting (up_to 1 x.now (places.take_axes x.now y.now)) result }
{
    up_to(1, x)?;
    structure::take(pool, x, y)
}

fn drop_items(pool: &mut Pool, x: &Noun, y: &Noun) -> Result<Noun, Refusal>
    ensures { OrWanting (up_to 1 x.now (places.drop_axes x.now y.now)) result }
{
    up_to(1, x)?;
    structure::drop_items(pool, x, y)
}

fn reshape(pool: &mut Pool, x: &Noun, y: &Noun) -> Result<Noun, Refusal>
    ensures { OrWanting (up_to 1 x.now (reshaping.reshape x.now y.now)) result }
{
    up_to(1, x)?;
    structure::reshape(pool, x, y)
}

fn transpose_by(pool: &mut Pool, x: &Noun, y: &Noun) -> Result<Noun, Refusal>
    ensures { OrWanting (up_to 1 x.now (axes.transpose_by x.now y.now)) result }
{
    up_to(1, x)?;
    structure::transpose_by(pool, x, y)
}

#[tactic(auto, using(crate::proofs::OnCells::no_axes))]
fn from(pool: &mut Pool, x: &Noun, y: &Noun) -> Result<Noun, Refusal>
    ensures { OrWanting (up_to 0 x.now (indexing.from x.now y.now)) result }
{
    up_to(0, x)?;
    selection::from(pool, x, y)
}

/// What a verb gives of one noun.
pub fn of_one(pool: &mut Pool, m: Monad, y: &Noun) -> Result<Noun, Refusal>
    ensures { OrWanting (of_one m y.now) result }
{
    match m {
        Monad::ShapeOf => structure::shape_of(pool, y),
        Monad::TallyOf => structure::tally_of(pool, y),
        Monad::Ravel => structure::ravel(pool, y),
        Monad::RavelItems => structure::ravel_items(pool, y),
        Monad::Itemize => structure::itemize(pool, y),
        Monad::Reverse => structure::reverse(pool, y),
        Monad::Transpose => structure::transpose(pool, y),
        Monad::Head => structure::head(pool, y),
        Monad::Tail => structure::tail(pool, y),
        Monad::Behead => structure::behead(pool, y),
        Monad::Curtail => structure::curtail(pool, y),
        Monad::Integers => integers(pool, y),
        Monad::StepsAround => steps_around(pool, y),
        Monad::IndicesOfOnes => indices_of_ones(pool, y),
        Monad::Nub => search::nub(pool, y),
        Monad::NubSieve => search::nub_sieve(pool, y),
        Monad::SelfClassify => search::self_classify(pool, y),
        Monad::GradeUp => search::grade_up(pool, y),
        Monad::GradeDown => search::grade_down(pool, y),
        Monad::BaseTwo => insertion::base(pool, &Noun::number(2), y),
        Monad::AntibaseTwo => insertion::antibase_two(pool, y),
        Monad::Boxed => structure::boxed(pool, y),
        Monad::Opened => opened(pool, y),
        Monad::Raze => structure::raze(pool, y),
        Monad::Catalogue => selection::catalogue(pool, y),
        Monad::WordForms => word_forms(pool, y),
        Monad::Format => display::format(pool, y),
    }
}

/// What a verb gives of two nouns.
pub fn of_two(pool: &mut Pool, d: Dyad, x: &Noun, y: &Noun) -> Result<Noun, Refusal>
    ensures { OrWanting (of_two d x.now y.now) result }
{
    match d {
        Dyad::Reshape => reshape(pool, x, y),
        Dyad::Append => structure::append(pool, x, y),
        Dyad::Stitch => structure::stitch(pool, x, y),
        Dyad::Laminate => structure::laminate(pool, x, y),
        Dyad::Rotate => rotate(pool, x, y),
        Dyad::TransposeBy => transpose_by(pool, x, y),
        Dyad::Take => take(pool, x, y),
        Dyad::DropItems => drop_items(pool, x, y),
        Dyad::Copy => copy(pool, x, y),
        Dyad::From => from(pool, x, y),
        Dyad::IndexOf => search::index_of(pool, x, y),
        Dyad::LastIndexOf => search::last_index_of(pool, x, y),
        Dyad::Member => search::member(pool, x, y),
        Dyad::Less => search::less(pool, x, y),
        Dyad::Match => search::match_of(pool, x, y),
        Dyad::SortUp => search::sort_up(pool, x, y),
        Dyad::SortDown => search::sort_down(pool, x, y),
        Dyad::Base => insertion::base(pool, x, y),
        Dyad::Antibase => insertion::antibase(pool, x, y),
        Dyad::Link => structure::link(pool, x, y),
    }
}
