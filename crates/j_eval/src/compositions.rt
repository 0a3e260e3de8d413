// Verbs that are applied to what other verbs give, or to arguments that are given beforehand.
ghost use Rattle.std.specs.Option.{option_copied};
ghost use Rattle.j_entity.specs.View.{operand_of};
ghost use Rattle.std.specs.Prelude.{◌≡◌, Some, None, IfSome};
ghost use Rattle.j_entity.specs.Heights.{verb_height};
ghost use Rattle.j_trains.specs.Obverses.{verb_of_word};
ghost use Rattle.j_verbs.specs.State.{then_do};
ghost use Rattle.j_eval.specs.Applying.{does, nested, seen};
ghost use Rattle.j_eval.specs.Compositions.{at, bond, left_bound, over, passive, right_bound, operand_obverse, under, word_does};
ghost use Rattle.j_eval.specs.Meets.{Meets, Onward};

use crate::machine::Machine;
use crate::outcome::Halt;
use j_entity::{Operand, Verb};
use j_noun::{Fault, Noun};
use j_trains::obverse;

// The obverse of an operand, if it has one.
fn operand_obverse(v: &Operand) -> Option<Verb>
    ensures obverse { result ≡ verb_of_word (operand_obverse (operand_of v.now)) }
    ensures low { IfSome result (λ w. verb_height w ≡ 0) }
{
    match v {
        Operand::Verb(v) => obverse(v),
        Operand::Noun(_) | Operand::Ranks(_) => None,
    }
}

impl Machine {
    // `u@v` and `u@:v`
    #[cycle(eval)]
    pub(crate) fn at(
        &mut self,
        room: u32,
        u: &Operand,
        v: &Operand,
        x: Option<&Noun>,
        y: &Noun,
    ) -> Result<Noun, Halt>
        ensures gives { Meets result self.new (at (seen (nested room) (operand_of u.now)) (seen (nested room) (operand_of v.now)) (option_copied x.entry) y.now self.old.state) }
        ensures onward { Onward self.old self.new }
    {
        let r = self.does(room, v, x, y)?;
        let answer = self.does(room, u, None, &r);
        drop(r);
        answer
    }

    // `u&v` and `u&:v` of verbs
    #[cycle(eval)]
    pub(crate) fn over(
        &mut self,
        room: u32,
        u: &Operand,
        v: &Operand,
        x: Option<&Noun>,
        y: &Noun,
    ) -> Result<Noun, Halt>
        ensures gives { Meets result self.new (over (seen (nested room) (operand_of u.now)) (seen (nested room) (operand_of v.now)) (option_copied x.entry) y.now self.old.state) }
        ensures onward { Onward self.old self.new }
    {
        let Some(x) = x else {
            return self.at(room, u, v, None, y);
        };
        let right = self.does(room, v, None, y)?;
        let answer = self.over_left(room, u, v, x, &right);
        drop(right);
        answer
    }

    // The left argument of `u&v`, and then u.
    #[cycle(eval)]
    fn over_left(
        &mut self,
        room: u32,
        u: &Operand,
        v: &Operand,
        x: &Noun,
        right: &Noun,
    ) -> Result<Noun, Halt>
        ensures gives { Meets result self.new (then_do (does (nested room) (operand_of v.now) None x.now self.old.state) (λ a. does (nested room) (operand_of u.now) (Some a) right.now)) }
        ensures onward { Onward self.old self.new }
    {
        let left = self.does(room, v, None, x)?;
        let answer = self.does(room, u, Some(&left), right);
        drop(left);
        answer
    }

    // The obverse of an operand.
    #[cycle(eval)]
    #[tactic(auto, using(crate::proofs::Obverses::undone, crate::proofs::Obverses::not_undone))]
    fn undo(&mut self, room: u32, v: &Operand, y: &Noun) -> Result<Noun, Halt>
        ensures gives { Meets result self.new (word_does (operand_obverse (operand_of v.now)) None y.now self.old.state) }
        ensures onward { Onward self.old self.new }
    {
        match operand_obverse(v) {
            Some(w) => {
                let answer = self.apply(room, &w, None, y);
                drop(w);
                answer
            }
            None => Err(Halt::Failed(Fault::Domain)),
        }
    }

    // `u&.v`
    #[cycle(eval)]
    pub(crate) fn under(
        &mut self,
        room: u32,
        u: &Operand,
        v: &Operand,
        x: Option<&Noun>,
        y: &Noun,
    ) -> Result<Noun, Halt>
        ensures gives { Meets result self.new (under (seen (nested room) (operand_of u.now)) (seen (nested room) (operand_of v.now)) (option_copied x.entry) y.now self.old.state) }
        ensures onward { Onward self.old self.new }
    {
        let r = self.over(room, u, v, x, y)?;
        let answer = self.undo(room, v, &r);
        drop(r);
        answer
    }

    // `m&v`
    #[cycle(eval)]
    fn left_bound(
        &mut self,
        room: u32,
        m: &Noun,
        v: &Operand,
        x: Option<&Noun>,
        y: &Noun,
    ) -> Result<Noun, Halt>
        ensures gives { Meets result self.new (left_bound m.now (seen (nested room) (operand_of v.now)) (option_copied x.entry) y.now self.old.state) }
        ensures onward { Onward self.old self.new }
    {
        match x {
            Some(_) => Err(Halt::Failed(Fault::Nonce)),
            None => self.does(room, v, Some(m), y),
        }
    }

    // `u&n`
    #[cycle(eval)]
    fn right_bound(
        &mut self,
        room: u32,
        u: &Operand,
        n: &Noun,
        x: Option<&Noun>,
        y: &Noun,
    ) -> Result<Noun, Halt>
        ensures gives { Meets result self.new (right_bound (seen (nested room) (operand_of u.now)) n.now (option_copied x.entry) y.now self.old.state) }
        ensures onward { Onward self.old self.new }
    {
        match x {
            Some(_) => Err(Halt::Failed(Fault::Nonce)),
            None => self.does(room, u, Some(y), n),
        }
    }

    // `&`
    #[cycle(eval)]
    pub(crate) fn bond(
        &mut self,
        room: u32,
        u: &Operand,
        v: &Operand,
        x: Option<&Noun>,
        y: &Noun,
    ) -> Result<Noun, Halt>
        ensures gives { Meets result self.new (bond (seen (nested room) (operand_of u.now)) (seen (nested room) (operand_of v.now)) (option_copied x.entry) y.now self.old.state) }
        ensures onward { Onward self.old self.new }
    {
        match (u, v) {
            (Operand::Verb(_), Operand::Verb(_)) => self.over(room, u, v, x, y),
            (Operand::Noun(m), Operand::Verb(_)) => self.left_bound(room, m, v, x, y),
            (Operand::Verb(_), Operand::Noun(n)) => self.right_bound(room, u, n, x, y),
            (Operand::Noun(_), Operand::Noun(_))
            | (Operand::Ranks(_), _)
            | (_, Operand::Ranks(_)) => Err(Halt::Failed(Fault::Domain)),
        }
    }

    // `u~`
    #[cycle(eval)]
    pub(crate) fn passive(
        &mut self,
        room: u32,
        u: &Operand,
        x: Option<&Noun>,
        y: &Noun,
    ) -> Result<Noun, Halt>
        ensures gives { Meets result self.new (passive (seen (nested room) (operand_of u.now)) (option_copied x.entry) y.now self.old.state) }
        ensures onward { Onward self.old self.new }
    {
        self.does(room, u, Some(y), x.unwrap_or(y))
    }
}
