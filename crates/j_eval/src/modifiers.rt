// The verbs that modifiers make.
ghost use Rattle.std.specs.Option.{option_copied};
ghost use Rattle.j_entity.specs.View.{operand_of};
ghost use Rattle.j_eval.specs.Applying.{nested, seen};
ghost use Rattle.j_eval.specs.Meets.{Meets, Onward};
ghost use Rattle.j_eval.specs.Modifiers.{adverb, conjunction, joined, modified};

use crate::machine::Machine;
use crate::outcome::Halt;
use j_entity::{Modifier, Operand};
use j_noun::{Fault, Noun};
use j_trains::{adverb_fault, conjunction_fault};

impl Machine {
    // What an adverb's verb does.
    #[cycle(eval)]
    fn modified(
        &mut self,
        room: u32,
        m: Modifier,
        u: &Operand,
        x: Option<&Noun>,
        y: &Noun,
    ) -> Result<Noun, Halt>
        ensures gives { Meets result self.new (modified m (seen (nested room) (operand_of u.now)) (option_copied x.entry) y.now self.old.state) }
        ensures onward { Onward self.old self.new }
    {
        match m {
            Modifier::Passive => self.passive(room, u, x, y),
            Modifier::Insert => self.insert(room, u, x, y),
            Modifier::Amend => self.amend(u, x, y),
            Modifier::Prefix => self.prefix(room, u, x, y),
            Modifier::Suffix => self.suffix(room, u, x, y),
            // At two places, so that it keeps a frame of its own.
            Modifier::Oblique => match x {
                Some(_) => self.oblique(room, u, x, y),
                None => self.oblique(room, u, None, y),
            },
            Modifier::Cut
            | Modifier::Rank
            | Modifier::Atop
            | Modifier::At
            | Modifier::Bond
            | Modifier::Appose
            | Modifier::Under
            | Modifier::PowerOf
            | Modifier::Product
            | Modifier::Adverse
            | Modifier::Monadic => Err(Halt::Failed(Fault::Domain)),
        }
    }

    // A verb that an adverb made.
    #[cycle(eval)]
    pub(crate) fn adverb(
        &mut self,
        room: u32,
        m: Modifier,
        u: &Operand,
        x: Option<&Noun>,
        y: &Noun,
    ) -> Result<Noun, Halt>
        ensures gives { Meets result self.new (adverb m (seen (nested room) (operand_of u.now)) (option_copied x.entry) y.now self.old.state) }
        ensures onward { Onward self.old self.new }
    {
        match adverb_fault(m, u) {
            Some(_) => Err(Halt::Failed(Fault::Domain)),
            None => self.modified(room, m, u, x, y),
        }
    }

    // What a conjunction's verb does.
    #[cycle(eval)]
    fn joined(
        &mut self,
        room: u32,
        m: Modifier,
        u: &Operand,
        v: &Operand,
        x: Option<&Noun>,
        y: &Noun,
    ) -> Result<Noun, Halt>
        ensures gives { Meets result self.new (joined m (seen (nested room) (operand_of u.now)) (seen (nested room) (operand_of v.now)) (option_copied x.entry) y.now self.old.state) }
        ensures onward { Onward self.old self.new }
    {
        match m {
            Modifier::Rank => self.rank(room, u, x, y),
            Modifier::Atop => self.at(room, u, v, x, y),
            Modifier::At => self.at(room, u, v, x, y),
            Modifier::Bond => self.bond(room, u, v, x, y),
            Modifier::Appose => self.over(room, u, v, x, y),
            Modifier::Under => self.under(room, u, v, x, y),
            Modifier::Product => self.product(room, u, v, x, y),
            // Each at two places, so that it keeps a frame of its own.
            Modifier::Cut => match x {
                Some(_) => self.cut(room, u, v, x, y),
                None => self.cut(room, u, v, None, y),
            },
            Modifier::PowerOf => match x {
                Some(_) => self.power(room, u, v, x, y),
                None => self.power(room, u, v, None, y),
            },
            Modifier::Insert
            | Modifier::Prefix
            | Modifier::Suffix
            | Modifier::Oblique
            | Modifier::Passive
            | Modifier::Amend
            | Modifier::Adverse
            | Modifier::Monadic => Err(Halt::Failed(Fault::Domain)),
        }
    }

    // A verb that a conjunction made.
    #[cycle(eval)]
    pub(crate) fn conjunction(
        &mut self,
        room: u32,
        m: Modifier,
        u: &Operand,
        v: &Operand,
        x: Option<&Noun>,
        y: &Noun,
    ) -> Result<Noun, Halt>
        ensures gives { Meets result self.new (conjunction m (seen (nested room) (operand_of u.now)) (seen (nested room) (operand_of v.now)) (option_copied x.entry) y.now self.old.state) }
        ensures onward { Onward self.old self.new }
    {
        match conjunction_fault(m, u, v) {
            Some(_) => Err(Halt::Failed(Fault::Domain)),
            None => self.joined(room, m, u, v, x, y),
        }
    }
}
