// `<` on each of some cells: their boxes go straight into one noun.
ghost use Rattle.std.specs.Prelude.{◌≡◌, ◌<◌, length, IsTrue};
ghost use Rattle.std.specs.List.{All};
ghost use Rattle.j_definitions.specs.Array.{IsNoun};
ghost use Rattle.j_entity.specs.Tree.{primitive};
ghost use Rattle.j_leaves.specs.declared.primitive.Primitive.TheVariants.{Less};
ghost use Rattle.j_verbs.specs.ByRank.{on_pairs};
ghost use Rattle.j_eval.specs.Applying.{Calls};
ghost use Rattle.j_eval.specs.EachCell.{on_each};
ghost use Rattle.j_eval.specs.Boxing.{AreAlone, IsBoxing, alone_each};
ghost use Rattle.j_eval.specs.Meets.{Kept, Meets, NoMemoryOr, Onward};
ghost use Rattle.j_eval.specs.Sources.{HasCells, source_of};

use crate::by_rank::EachCell;
use crate::machine::Machine;
use crate::outcome::{Halt, or_halt};
use crate::sources::{CellsFrom, cell_count, frame_of};
use j_entity::{Operand, Tree, Verb};
use j_leaves::Primitive;
use j_noun::{Atoms, Noun, boxes};

// Whether a verb is `<`.
fn is_box(v: &Verb) -> bool
    ensures { IsTrue result → v.now ≡ primitive Less }
{
    match v.tree() {
        Tree::Primitive(p) => matches!(p, Primitive::Less),
        Tree::Named(_, _)
        | Tree::Fork(_, _, _)
        | Tree::NounFork(_, _, _)
        | Tree::Hook(_, _)
        | Tree::Derived(_, _)
        | Tree::Derived2(_, _, _)
        | Tree::Explicit(_)
        | Tree::Explicit1(_, _)
        | Tree::Explicit2(_, _, _) => false,
    }
}

// Whether `<` is what is done on each cell.
pub(crate) fn is_boxing(each: EachCell<'_>) -> bool
    ensures { IsTrue result → IsBoxing each.entry }
{
    match each {
        EachCell::Does(Operand::Verb(v)) => is_box(v),
        EachCell::Does(_) | EachCell::Cell(_) => false,
    }
}

// Whether there is no left argument, so that each cell is alone.
pub(crate) fn are_alone(cells: CellsFrom<'_>) -> bool
    ensures { IsTrue result → AreAlone cells.entry }
{
    match cells {
        CellsFrom::Arguments(_, x, _) => x.is_none(),
        CellsFrom::Runs(_) | CellsFrom::Groups(_) => true,
    }
}

// What needs memory, apart from the functions that call each other.
impl Machine {
    // The cells, each alone.
    fn contents(&mut self, cells: CellsFrom<'_>) -> Result<Vec<Noun>, Halt>
        requires cells { HasCells cells }
        requires alone { AreAlone cells }
        ensures value { NoMemoryOr result (λ v. ((source_of cells.entry).pairs ≡ alone_each v.items) × All IsNoun v.items) }
        ensures kept { Kept self.old self.new }
    {
        let count = cell_count(cells);
        let mut contents = boxes(&mut self.pool, count)?;
        for k in 0..count {
            let (left, cell) = self.cells_at(cells, k)?;
            drop(left);
            let _ = cell.view();
            let Ok(()) = contents.push(cell) else {
                return Err(Halt::NoMemory);
            };
        }
        Ok(contents)
    }

    // What `<` gives on cells that are alone: the noun of their boxes.
    #[tactic(auto, using(crate::proofs::Contents::boxes_meet, crate::proofs::Contents::boxes_many))]
    pub(crate) fn boxes_of(
        &mut self,
        each: EachCell<'_>,
        cells: CellsFrom<'_>,
    ) -> Result<Noun, Halt>
        requires some { 0 < length (source_of cells).pairs }
        requires cells { HasCells cells }
        requires boxing { IsBoxing each }
        requires alone { AreAlone cells }
        ensures gives { (calls : Calls) → Meets result self.new (on_pairs (on_each calls each.entry) (source_of cells.entry) self.old.state) }
        ensures onward { Onward self.old self.new }
    {
        let _ = each;
        let contents = self.contents(cells)?;
        let frame = frame_of(cells);
        or_halt(Noun::make(&mut self.pool, frame, Atoms::Boxes(contents)))
    }
}
