// The application of verbs.
ghost use Rattle.std.specs.Prelude.{◌≡◌, ◌≤◌, ◌+◌, Some, None, IfSome, MatchOption};
ghost use Rattle.std.specs.Option.{option_copied};
ghost use Rattle.j_entity.specs.Heights.{verb_height};
ghost use Rattle.j_entity.specs.View.{operand_of};
ghost use Rattle.j_eval.specs.Applying.{Calls, apply, call, cell, does, named_cell, nested};
ghost use Rattle.j_eval.specs.Meets.{Kept, Meets, Onward};
ghost use Rattle.j_eval.specs.Names.{visiting};

use crate::by_rank::EachCell;
use crate::machine::Machine;
use crate::outcome::{Halt, or_halt};
use crate::run_verbs::run_verb;
use j_entity::{Operand, Tree, Verb};
use j_leaves::{Name, Text};
use j_noun::{Fault, Noun};

// The levels left in a call of a verb, where there are enough.
fn levels_below(room: u32, v: &Verb) -> Option<u32>
    ensures { MatchOption result (room ≤ verb_height v.now) (λ below. below + verb_height v.now + 1 ≡ room) }
{
    let below = room.checked_sub(1)?;
    below.checked_sub(v.height() as u32)
}

impl Machine {
    // What a word gives on all its cells at once, where it is served so.
    #[tactic(auto, unfolding(crate::specs::Applying::apply), using(crate::proofs::Visits::spoken_whole))]
    fn whole(&mut self, v: &Verb, x: Option<&Noun>, y: &Noun) -> Option<Result<Noun, Halt>>
        ensures gives { IfSome result (λ a. (calls : Calls) → Meets a self.new (apply calls v.now (option_copied x.entry) y.now self.old.state)) }
        ensures kept { Kept self.old self.new }
    {
        match v.tree() {
            Tree::Primitive(p) if run_verb(p).is_none() => Some(or_halt(j_verbs::whole(
                &mut self.pool,
                p,
                v.ranks(),
                x,
                y,
            )?)),
            Tree::Primitive(_)
            | Tree::Named(_, _)
            | Tree::Fork(_, _, _)
            | Tree::NounFork(_, _, _)
            | Tree::Hook(_, _)
            | Tree::Derived(_, _)
            | Tree::Derived2(_, _, _)
            | Tree::Explicit(_)
            | Tree::Explicit1(_, _)
            | Tree::Explicit2(_, _, _) => None,
        }
    }

    /// A call of a verb where `room` levels are left.
    #[cycle(eval)]
    #[tactic(auto, using(crate::proofs::Runs::stack_call))]
    pub(crate) fn call(
        &mut self,
        room: u32,
        v: &Verb,
        x: Option<&Noun>,
        y: &Noun,
    ) -> Result<Noun, Halt>
        ensures gives { Meets result self.new (call (nested room) v.now (option_copied x.entry) y.now self.old.state) }
        ensures onward { Onward self.old self.new }
    {
        match levels_below(room, v) {
            Some(below) => self.apply(below, v, x, y),
            None => Err(Halt::Failed(Fault::Stack)),
        }
    }

    // A verb inside a call, where `room` levels are left for further calls.
    #[cycle(eval)]
    #[tactic(auto, unfolding(crate::specs::Applying::apply))]
    pub(crate) fn apply(
        &mut self,
        room: u32,
        v: &Verb,
        x: Option<&Noun>,
        y: &Noun,
    ) -> Result<Noun, Halt>
        ensures gives { Meets result self.new (apply (nested room) v.now (option_copied x.entry) y.now self.old.state) }
        ensures onward { Onward self.old self.new }
    {
        match self.whole(v, x, y) {
            Some(answer) => answer,
            None => self.ranked(room, EachCell::Cell(v), v.ranks(), x, y),
        }
    }

    // What a verb does on one cell or two.
    #[cycle(eval)]
    #[tactic(auto, unfolding(crate::specs::Applying::apply))]
    pub(crate) fn cell(
        &mut self,
        room: u32,
        v: &Verb,
        x: Option<&Noun>,
        y: &Noun,
    ) -> Result<Noun, Halt>
        ensures gives { Meets result self.new (cell (nested room) v.now (option_copied x.entry) y.now self.old.state) }
        ensures onward { Onward self.old self.new }
    {
        match v.tree() {
            Tree::Primitive(p) => self.word(p, x, y),
            Tree::Named(name, _) => self.named_cell(room, name, x, y),
            Tree::Fork(f, g, h) => self.fork(room, f, g, h, x, y),
            Tree::NounFork(n, g, h) => self.noun_fork(room, n, g, h, x, y),
            Tree::Hook(g, h) => self.hook(room, g, h, x, y),
            // At two places, so that it keeps a frame of its own.
            Tree::Derived(m, u) => match x {
                Some(_) => self.adverb(room, m, u, x, y),
                None => self.adverb(room, m, u, None, y),
            },
            Tree::Derived2(m, u, v) => self.conjunction(room, m, u, v, x, y),
            Tree::Explicit(_) | Tree::Explicit1(_, _) | Tree::Explicit2(_, _, _) => Err(
                Halt::Failed(Fault::Nonce),
            ),
        }
    }

    // What an operand does as a verb.
    #[cycle(eval)]
    #[tactic(auto, unfolding(crate::specs::Applying::apply))]
    pub(crate) fn does(
        &mut self,
        room: u32,
        u: &Operand,
        x: Option<&Noun>,
        y: &Noun,
    ) -> Result<Noun, Halt>
        ensures gives { Meets result self.new (does (nested room) (operand_of u.now) (option_copied x.entry) y.now self.old.state) }
        ensures onward { Onward self.old self.new }
    {
        match u {
            Operand::Verb(v) => self.apply(room, v, x, y),
            Operand::Noun(_) | Operand::Ranks(_) => Err(Halt::Failed(Fault::Domain)),
        }
    }

    // A name on one cell or two: a step, and a call of the verb that the name holds then, in the locale of a locative.
    #[cycle(eval)]
    fn named_cell(
        &mut self,
        room: u32,
        name: &Name,
        x: Option<&Noun>,
        y: &Noun,
    ) -> Result<Noun, Halt>
        ensures gives { Meets result self.new (named_cell (nested room) name.now (option_copied x.entry) y.now self.old.state) }
        ensures onward { Onward self.old self.new }
    {
        self.tick()?;
        let locale = self.locale_named(name)?;
        let v = self.verb_named(name)?;
        let answer = self.visiting(room, locale, &v, x, y);
        drop(v);
        answer
    }

    // A call of a verb, in a locale where there is one.
    #[cycle(eval)]
    fn visiting(
        &mut self,
        room: u32,
        locale: Option<Text>,
        v: &Verb,
        x: Option<&Noun>,
        y: &Noun,
    ) -> Result<Noun, Halt>
        ensures gives { Meets result self.new (visiting locale (call (nested room) v.now (option_copied x.entry) y.now) self.old.state) }
        ensures onward { Onward self.old self.new }
    {
        match locale {
            None => self.call(room, v, x, y),
            Some(locale) => self.visit(room, locale, v, x, y),
        }
    }

    // A call of a verb in a locale. However it ends, the current locale is then what it was.
    #[cycle(eval)]
    #[tactic(auto, using(crate::proofs::Visits::back_meets))]
    fn visit(
        &mut self,
        room: u32,
        locale: Text,
        v: &Verb,
        x: Option<&Noun>,
        y: &Noun,
    ) -> Result<Noun, Halt>
        ensures gives { Meets result self.new (visiting (Some locale) (call (nested room) v.now (option_copied x.entry) y.now) self.old.state) }
        ensures onward { Onward self.old self.new }
    {
        let former = self.switch_locale(locale);
        let answer = self.call(room, v, x, y);
        drop(self.switch_locale(former));
        answer
    }
}
