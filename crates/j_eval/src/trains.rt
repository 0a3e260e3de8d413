// Forks and hooks.
ghost use Rattle.std.specs.Prelude.{◌≡◌, Some};
ghost use Rattle.j_verbs.specs.State.{then_do};
ghost use Rattle.std.specs.Option.{option_copied};
ghost use Rattle.j_eval.specs.Applying.{apply, nested};
ghost use Rattle.j_eval.specs.Meets.{Meets, Onward};
ghost use Rattle.j_eval.specs.Trains.{forked, hooked, is_cap, noun_forked};

use crate::machine::Machine;
use crate::outcome::Halt;
use j_entity::{Primitive, Tree, Verb};
use j_noun::Noun;

/// Whether a verb is `[:`.
fn is_cap(v: &Verb) -> bool
    ensures { result ≡ is_cap v.now }
{
    match v.tree() {
        Tree::Primitive(v) => v == Primitive::Cap,
        Tree::Named(_, _)
        | Tree::Fork(_, _, _)
        | Tree::NounFork(_, _, _)
        | Tree::Hook(_, _)
        | Tree::Derived(_, _)
        | Tree::Derived2(_, _, _)
        | Tree::Explicit(_)
        | Tree::Explicit1(_, _)
        | Tree::Explicit2(_, _, _) => false,
    }
}

impl Machine {
    // A fork of verbs; `[:` on its left leaves one part.
    #[cycle(eval)]
    pub(crate) fn fork(
        &mut self,
        room: u32,
        f: &Verb,
        g: &Verb,
        h: &Verb,
        x: Option<&Noun>,
        y: &Noun,
    ) -> Result<Noun, Halt>
        ensures gives { Meets result self.new (forked (is_cap f.now) (apply (nested room) f.now) (apply (nested room) g.now) (apply (nested room) h.now) (option_copied x.entry) y.now self.old.state) }
        ensures onward { Onward self.old self.new }
    {
        let right = self.apply(room, h, x, y)?;
        let answer = if is_cap(f) {
            self.apply(room, g, None, &right)
        } else {
            self.fork_left(room, f, g, &right, x, y)
        };
        drop(right);
        answer
    }

    // The left part of a fork, and then the middle one.
    #[cycle(eval)]
    fn fork_left(
        &mut self,
        room: u32,
        f: &Verb,
        g: &Verb,
        right: &Noun,
        x: Option<&Noun>,
        y: &Noun,
    ) -> Result<Noun, Halt>
        ensures gives { Meets result self.new (then_do (apply (nested room) f.now (option_copied x.entry) y.now self.old.state) (λ a. apply (nested room) g.now (Some a) right.now)) }
        ensures onward { Onward self.old self.new }
    {
        let left = self.apply(room, f, x, y)?;
        let answer = self.apply(room, g, Some(&left), right);
        drop(left);
        answer
    }

    // A fork whose left part is a noun.
    #[cycle(eval)]
    pub(crate) fn noun_fork(
        &mut self,
        room: u32,
        n: &Noun,
        g: &Verb,
        h: &Verb,
        x: Option<&Noun>,
        y: &Noun,
    ) -> Result<Noun, Halt>
        ensures gives { Meets result self.new (noun_forked n.now (apply (nested room) g.now) (apply (nested room) h.now) (option_copied x.entry) y.now self.old.state) }
        ensures onward { Onward self.old self.new }
    {
        let right = self.apply(room, h, x, y)?;
        let answer = self.apply(room, g, Some(n), &right);
        drop(right);
        answer
    }

    #[cycle(eval)]
    pub(crate) fn hook(
        &mut self,
        room: u32,
        g: &Verb,
        h: &Verb,
        x: Option<&Noun>,
        y: &Noun,
    ) -> Result<Noun, Halt>
        ensures gives { Meets result self.new (hooked (apply (nested room) g.now) (apply (nested room) h.now) (option_copied x.entry) y.now self.old.state) }
        ensures onward { Onward self.old self.new }
    {
        let right = self.apply(room, h, None, y)?;
        let answer = self.apply(room, g, Some(x.unwrap_or(y)), &right);
        drop(right);
        answer
    }
}
