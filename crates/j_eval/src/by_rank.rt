// The cells that a verb's ranks make of its arguments, and the noun of their results.
ghost use Rattle.std.specs.Prelude.{◌≡◌, ◌<◌, ◌∷◌, ◌++◌, [], length, max};
ghost use Rattle.std.specs.Option.{option_copied};
ghost use Rattle.j_definitions.specs.Array.{Array, product};
ghost use Rattle.j_rank.specs.Assembly.{assemble};
ghost use Rattle.j_eval.specs.Applying.{nested};
ghost use Rattle.j_eval.specs.EachCell.{on_each};
ghost use Rattle.j_eval.specs.Meets.{Running, Kept, Meets, NoMemoryOr, Onward};
ghost use Rattle.j_eval.specs.Sources.{HasCells, source_of};
ghost use Rattle.j_verbs.specs.ByRank.{IsWhole, zero_atom, by_ranks, by_source, on_pairs, on_fills, fill_result};
ghost use Rattle.j_verbs.specs.State.{Outcome, else_do, or_fault, pure};

use crate::boxing::{are_alone, is_boxing};
use crate::machine::Machine;
use crate::outcome::{Halt, or_halt};
use crate::sources::{CellsFrom, cell_count, collector};
use j_entity::{Operand, Verb};
use j_leaves::Ranks;
use j_noun::Noun;
use j_rank::{Collector, alone, are_whole, is_whole};
use j_verbs::planned;

// What is done on each cell: what a verb does on a cell of its own ranks, or an operand as a verb.
#[derive(Clone, Copy)]
pub(crate) enum EachCell<'a> {
    Cell(&'a Verb),
    Does(&'a Operand),
}

// The number 0 where a run errs.
fn or_zero(r: Result<Noun, Halt>) -> Result<Noun, Halt>
    ensures { (m : Running) (o : Outcome Array) → Meets r m o → Meets result m (else_do o (pure zero_atom)) }
{
    match r {
        Ok(y) => Ok(y),
        Err(Halt::Failed(_)) => Ok(Noun::number(0)),
        Err(Halt::Spent) => Err(Halt::Spent),
        Err(Halt::NoMemory) => Err(Halt::NoMemory),
    }
}

// What needs memory, apart from the functions that call each other.
impl Machine {
    // Takes the next result.
    fn collect(&mut self, results: &mut Collector, r: Noun) -> Result<(), Halt>
        ensures value { NoMemoryOr result (λ _. results.new ≡ record { frame = results.old.frame; results = results.old.results ++ r ∷ [] }) }
        ensures kept { Kept self.old self.new }
    {
        Ok(results.push(&mut self.pool, r)?)
    }

    // The noun of the results of all pairs.
    #[tactic(auto, using(crate::proofs::Parts::meets_answer))]
    fn assembled(&mut self, results: Collector) -> Result<Noun, Halt>
        requires { length results.results ≡ max (product results.frame) 1 }
        ensures gives { Meets result self.new (or_fault (assemble results.frame results.results) self.old.state) }
        ensures onward { Onward self.old self.new }
    {
        or_halt(results.finish(&mut self.pool))
    }
}

impl Machine {
    // What is done on cells of these ranks.
    #[cycle(eval)]
    pub(crate) fn ranked(
        &mut self,
        room: u32,
        each: EachCell<'_>,
        r: Ranks,
        x: Option<&Noun>,
        y: &Noun,
    ) -> Result<Noun, Halt>
        ensures gives { Meets result self.new (by_ranks r (on_each (nested room) each.entry) (option_copied x.entry) y.now self.old.state) }
        ensures onward { Onward self.old self.new }
    {
        match x {
            Some(left) if !are_whole(r.left, r.right, left, y) => self.by_cells(
                room, each, r, x, y,
            ),
            None if !is_whole(r.monad, y) => self.by_cells(room, each, r, x, y),
            _ => self.on_whole(room, each, r, x, y),
        }
    }

    // What is done on the whole of the arguments.
    #[cycle(eval)]
    fn on_whole(
        &mut self,
        room: u32,
        each: EachCell<'_>,
        r: Ranks,
        x: Option<&Noun>,
        y: &Noun,
    ) -> Result<Noun, Halt>
        requires { IsWhole r (option_copied x) y.now }
        ensures gives { Meets result self.new (by_ranks r (on_each (nested room) each.entry) (option_copied x.entry) y.now self.old.state) }
        ensures onward { Onward self.old self.new }
    {
        match self.on_cell(room, each, x, y) {
            Ok(noun) => Ok(alone(noun)),
            Err(halt) => Err(halt),
        }
    }

    // What is done on the cells that ranks make.
    #[cycle(eval)]
    #[inline(never)]
    fn by_cells(
        &mut self,
        room: u32,
        each: EachCell<'_>,
        r: Ranks,
        x: Option<&Noun>,
        y: &Noun,
    ) -> Result<Noun, Halt>
        ensures gives { Meets result self.new (by_ranks r (on_each (nested room) each.entry) (option_copied x.entry) y.now self.old.state) }
        ensures onward { Onward self.old self.new }
    {
        match planned(r, x, y) {
            Ok(plan) => self.by_source(room, each, CellsFrom::Arguments(&plan, x, y)),
            Err(fault) => Err(Halt::Failed(fault)),
        }
    }

    // What is done on cells.
    #[cycle(eval)]
    #[tactic(auto, using(crate::proofs::Cells::where_none, crate::proofs::Cells::where_some))]
    pub(crate) fn by_source(
        &mut self,
        room: u32,
        each: EachCell<'_>,
        cells: CellsFrom<'_>,
    ) -> Result<Noun, Halt>
        requires { HasCells cells }
        ensures gives { Meets result self.new (by_source (on_each (nested room) each.entry) (source_of cells.entry) self.old.state) }
        ensures onward { Onward self.old self.new }
    {
        if cell_count(cells) == 0 {
            self.over_fills(room, each, cells)
        } else {
            self.over_pairs(room, each, cells)
        }
    }

    // What is done where the frame holds a 0, so that there are no pairs.
    #[cycle(eval)]
    fn over_fills(
        &mut self,
        room: u32,
        each: EachCell<'_>,
        cells: CellsFrom<'_>,
    ) -> Result<Noun, Halt>
        requires none { product (source_of cells).frame ≡ 0 }
        requires cells { HasCells cells }
        ensures gives { Meets result self.new (on_fills (on_each (nested room) each.entry) (source_of cells.entry) self.old.state) }
        ensures onward { Onward self.old self.new }
    {
        let r = or_zero(self.fill_result(room, each, cells))?;
        let mut results = collector(cells);
        self.collect(&mut results, r)?;
        self.assembled(results)
    }

    // What is done on one cell or two.
    #[cycle(eval)]
    fn on_cell(
        &mut self,
        room: u32,
        each: EachCell<'_>,
        x: Option<&Noun>,
        y: &Noun,
    ) -> Result<Noun, Halt>
        ensures gives { Meets result self.new (on_each (nested room) each.entry (option_copied x.entry) y.now self.old.state) }
        ensures onward { Onward self.old self.new }
    {
        match each {
            EachCell::Cell(v) => self.cell(room, v, x, y),
            EachCell::Does(u) => self.does(room, u, x, y),
        }
    }

    // What is done on cells that are let go then.
    #[cycle(eval)]
    fn on_cells(
        &mut self,
        room: u32,
        each: EachCell<'_>,
        left: Option<Noun>,
        right: Noun,
    ) -> Result<Noun, Halt>
        ensures gives { Meets result self.new (on_each (nested room) each.entry left right self.old.state) }
        ensures onward { Onward self.old self.new }
    {
        let answer = self.on_cell(room, each, left.as_ref(), &right);
        drop(left);
        drop(right);
        answer
    }

    // What is done on the cells of fills.
    #[cycle(eval)]
    fn fill_result(
        &mut self,
        room: u32,
        each: EachCell<'_>,
        cells: CellsFrom<'_>,
    ) -> Result<Noun, Halt>
        requires { HasCells cells }
        ensures gives { Meets result self.new (fill_result (on_each (nested room) each.entry) (source_of cells.entry) self.old.state) }
        ensures onward { Onward self.old self.new }
    {
        let (left, right) = self.fills(cells)?;
        self.on_cells(room, each, left, right)
    }

    // What is done on each pair of cells.
    #[cycle(eval)]
    fn over_pairs(
        &mut self,
        room: u32,
        each: EachCell<'_>,
        cells: CellsFrom<'_>,
    ) -> Result<Noun, Halt>
        requires some { 0 < length (source_of cells).pairs }
        requires cells { HasCells cells }
        ensures gives { Meets result self.new (on_pairs (on_each (nested room) each.entry) (source_of cells.entry) self.old.state) }
        ensures onward { Onward self.old self.new }
    {
        if is_boxing(each) && are_alone(cells) {
            return self.boxes_of(each, cells);
        }
        let mut results = collector(cells);
        for k in 0..cell_count(cells) {
            let (left, right) = self.cells_at(cells, k)?;
            let r = self.on_cells(room, each, left, right)?;
            self.collect(&mut results, r)?;
        }
        self.assembled(results)
    }
}
