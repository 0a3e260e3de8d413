// Verbs that are given ranks.
ghost use Rattle.std.specs.Option.{option_copied};
ghost use Rattle.j_entity.specs.View.{operand_of};
ghost use Rattle.j_eval.specs.Applying.{nested, seen};
ghost use Rattle.j_eval.specs.Ranked.{rank};
ghost use Rattle.j_eval.specs.Meets.{Meets, Onward};

use crate::machine::Machine;
use crate::outcome::Halt;
use j_entity::Operand;
use j_noun::{Fault, Noun};

impl Machine {
    // `u"n`, `u"v` and `m"n` on cells of these ranks
    #[cycle(eval)]
    #[tactic(auto, unfolding(crate::specs::Applying::apply))]
    pub(crate) fn rank(
        &mut self,
        room: u32,
        u: &Operand,
        x: Option<&Noun>,
        y: &Noun,
    ) -> Result<Noun, Halt>
        ensures gives { Meets result self.new (rank (seen (nested room) (operand_of u.now)) (option_copied x.entry) y.now self.old.state) }
        ensures onward { Onward self.old self.new }
    {
        match u {
            Operand::Verb(u) => self.apply(room, u, x, y),
            Operand::Noun(m) => Ok(m.duplicate()?),
            Operand::Ranks(_) => Err(Halt::Failed(Fault::Domain)),
        }
    }
}
