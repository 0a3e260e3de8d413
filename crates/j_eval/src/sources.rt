// Where cells come from, and each of them.
ghost use Rattle.std.specs.Prelude.{◌≡◌, ◌<◌, ◌≤◌, [], length};
ghost use Rattle.j_definitions.specs.Array.{product};
ghost use Rattle.j_verbs.specs.State.{or_fault};
ghost use Rattle.j_eval.specs.Meets.{Kept, Meets, NoMemoryOr, Onward};
ghost use Rattle.j_eval.specs.Sources.{HasCells, cells_at, source_of};

use crate::machine::Machine;
use crate::outcome::Halt;
use j_noun::{Noun, Shape};
use j_rank::{Collector, Plan, shape_of};

// The cells that a plan takes of arguments, or the pieces of a noun, each alone: runs of its items, or items that belong together.
#[derive(Clone, Copy)]
pub(crate) enum CellsFrom<'a> {
    Arguments(&'a Plan, Option<&'a Noun>, &'a Noun),
    Runs(&'a j_scans::Pieces<'a>),
    Groups(&'a j_cuts_key::Pieces<'a>),
}

// How many cells there are, or pairs of them.
#[tactic(auto, using(crate::proofs::Taken::planned_count, crate::proofs::Taken::pieces_count))]
pub(crate) fn cell_count(cells: CellsFrom<'_>) -> usize
    ensures count { result ≡ length (source_of cells.entry).pairs }
    ensures frame { result ≡ product (source_of cells.entry).frame }
{
    match cells {
        CellsFrom::Arguments(plan, _, _) => plan.count(),
        CellsFrom::Runs(pieces) => pieces.count(),
        CellsFrom::Groups(pieces) => pieces.count(),
    }
}

// The frame of the cells.
pub(crate) fn frame_of(cells: CellsFrom<'_>) -> Shape
    ensures { result ≡ (source_of cells.entry).frame }
{
    match cells {
        CellsFrom::Arguments(plan, _, _) => plan.frame().copy(),
        CellsFrom::Runs(pieces) => shape_of(&[pieces.count()]),
        CellsFrom::Groups(pieces) => shape_of(&[pieces.count()]),
    }
}

// A collector of what is done on each.
pub(crate) fn collector(cells: CellsFrom<'_>) -> Collector
    ensures { result ≡ record { frame = (source_of cells.entry).frame; results = [] } }
{
    Collector::new(frame_of(cells))
}

// What needs memory, apart from the functions that call each other.
impl Machine {
    // Cells k, by a function that is called at two places, so that it keeps a frame of its own.
    pub(crate) fn cells_at(
        &mut self,
        cells: CellsFrom<'_>,
        k: usize,
    ) -> Result<(Option<Noun>, Noun), Halt>
        requires place { k < product (source_of cells).frame }
        requires cells { HasCells cells }
        ensures value { NoMemoryOr result (λ c. c ≡ cells_at cells.entry k) }
        ensures kept { Kept self.old self.new }
    {
        match cells {
            CellsFrom::Arguments(_, _, _) => self.made_at(cells, k),
            CellsFrom::Runs(_) | CellsFrom::Groups(_) => self.made_at(cells, k),
        }
    }

    // What stands for cells where there are none, likewise.
    pub(crate) fn fills(&mut self, cells: CellsFrom<'_>) -> Result<(Option<Noun>, Noun), Halt>
        requires { HasCells cells }
        ensures gives { Meets result self.new (or_fault (source_of cells.entry).fills self.old.state) }
        ensures onward { Onward self.old self.new }
    {
        match cells {
            CellsFrom::Arguments(_, _, _) => self.made_of_none(cells),
            CellsFrom::Runs(_) | CellsFrom::Groups(_) => self.made_of_none(cells),
        }
    }

    // Cells k.
    fn made_at(&mut self, cells: CellsFrom<'_>, k: usize) -> Result<(Option<Noun>, Noun), Halt>
        requires place { k < product (source_of cells).frame }
        requires cells { HasCells cells }
        ensures value { NoMemoryOr result (λ c. c ≡ cells_at cells.entry k) }
        ensures kept { Kept self.old self.new }
    {
        match cells {
            CellsFrom::Arguments(plan, x, y) => Ok(j_verbs::pair(&mut self.pool, plan, x, y, k)?),
            CellsFrom::Runs(pieces) => Ok((None, pieces.piece(&mut self.pool, k)?)),
            CellsFrom::Groups(pieces) => Ok((None, pieces.piece(&mut self.pool, k)?)),
        }
    }

    // What stands for cells where there are none.
    fn made_of_none(&mut self, cells: CellsFrom<'_>) -> Result<(Option<Noun>, Noun), Halt>
        requires { HasCells cells }
        ensures gives { Meets result self.new (or_fault (source_of cells.entry).fills self.old.state) }
        ensures onward { Onward self.old self.new }
    {
        match cells {
            CellsFrom::Arguments(plan, x, y) => Ok(j_verbs::fills(&mut self.pool, plan, x, y)?),
            CellsFrom::Runs(pieces) => Ok((None, pieces.no_items(&mut self.pool)?)),
            CellsFrom::Groups(pieces) => Ok((None, pieces.no_items(&mut self.pool)?)),
        }
    }
}
