// A noun with others at some places.
ghost use Rattle.std.specs.Option.{option_copied};
ghost use Rattle.j_entity.specs.View.{operand_of};
ghost use Rattle.j_select.specs.Amending.{amend as amended};
ghost use Rattle.j_verbs.specs.State.{or_fault};
ghost use Rattle.j_eval.specs.Amending.{amend_of};
ghost use Rattle.j_eval.specs.Meets.{Meets, Onward};

use crate::machine::Machine;
use crate::outcome::{Halt, or_halt};
use j_entity::Operand;
use j_noun::{Fault, Noun};

impl Machine {
    // y with x at the places that a noun says.
    #[tactic(auto, using(crate::proofs::Parts::meets_answer))]
    fn amended(&mut self, m: &Noun, x: &Noun, y: &Noun) -> Result<Noun, Halt>
        ensures gives { Meets result self.new (or_fault (amended m.now x.now y.now) self.old.state) }
        ensures onward { Onward self.old self.new }
    {
        or_halt(j_select::amend(&mut self.pool, m, x, y))
    }

    // `m}`
    pub(crate) fn amend(&mut self, m: &Operand, x: Option<&Noun>, y: &Noun) -> Result<Noun, Halt>
        ensures gives { Meets result self.new (amend_of (operand_of m.now) (option_copied x.entry) y.now self.old.state) }
        ensures onward { Onward self.old self.new }
    {
        match (m, x) {
            (Operand::Noun(m), Some(x)) => self.amended(m, x, y),
            (Operand::Noun(_), None) => Err(Halt::Failed(Fault::Nonce)),
            (Operand::Verb(_) | Operand::Ranks(_), _) => Err(Halt::Failed(Fault::Domain)),
        }
    }
}
