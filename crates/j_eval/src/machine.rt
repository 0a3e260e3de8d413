// The machine that evaluates sentences.
ghost use Rattle.std.specs.Prelude.{◌≡◌, ◌≢◌, ◌≤◌, [], length, map as mapped, Some, None, IfOk, option_map};
ghost use Rattle.std.specs.Option.{option_copied};
ghost use Rattle.j_definitions.specs.Array.{Array};
ghost use Rattle.j_entity.specs.Tree.{EntityTree};
ghost use Rattle.j_entity.specs.View.{entity_of, word_of};
ghost use Rattle.j_names.specs.Names.{begun, target_of, put};
ghost use Rattle.j_eval.specs.Names.{found, in_locale, locale_named, set_name, verb_named};
ghost use Rattle.j_eval.specs.Applying.{call, nested};
ghost use Rattle.j_verbs.specs.State.{Outcome as OutcomeOf, one_step, or_fault};
ghost use Rattle.j_eval.specs.Meaning.{top, show, show_unless, executed, most_levels};
ghost use Rattle.j_eval.specs.Meets.{Running, Answers, AnswersCall, Stays, StaysIn, Meets, MeetsAs, NoMemoryOr, Onward, ready};

use crate::outcome::{Halt, Outcome};
use j_display as display;
use j_entity::{Entity, Item, Prepared, Verb};
use j_leaves::{Name, Text};
use j_names::{Names, Target};
use j_noun::{Fault, NoMemory, Noun, Pool};
use std::alloc::Global;
use std::marker::Model;

const MOST_SHOWN: usize = 67_108_864;

// The most levels of calls in a top sentence.
#[tactic(auto, unfolding(crate::specs::Meaning::most_levels))]
fn most_levels() -> u32
    ensures { result ≡ most_levels }
{
    1_000
}

#[derive(Clone, Copy, PartialEq, Eq, Debug)]
enum Fitness {
    Ready,
    Spent,
    Exhausted,
}

/// Evaluates sentences one after another, and counts their steps.
#[derive(Drop)]
pub struct Machine {
    pub(crate) pool: Pool,
    budget: u64,
    steps: u64,
    fitness: Fitness,
    shown: Vec<u8>,
    names: Names,
}

impl Model for Machine {
    ghost use Rattle.j_eval.specs.Meets.{Running};
    ghost use Rattle.j_eval.specs.Coded.{coded_running};

    ghost Value = { Running };

    ghost coded = { coded_running };

    ghost use Rattle.j_eval.specs.Machine.{running_of};

    ghost view = { λ m. running_of m };
}

impl Machine {
    /// A machine that has counted no step and may count `budget` of them.
    pub fn new(alloc: Global, budget: u64) -> Result<Machine, NoMemory>
        ensures { IfOk result (λ m. m ≡ record { state = record { steps = 0; budget = budget; shown = []; names = begun }; readiness = ready; asked = 0 }) }
    {
        let names = Names::new(alloc)?;
        Ok(Machine {
            pool: Pool::new(alloc),
            budget,
            steps: 0,
            fitness: Fitness::Ready,
            shown: Vec::new(alloc),
            names,
        })
    }

    /// The number of steps counted.
    pub fn steps(&self) -> u64
        ensures { result ≡ self.now.state.steps }
    {
        self.steps
    }

    /// The number of elements of buffers asked for, or 2^64-1 where there were more.
    pub fn asked(&self) -> u64
        ensures { result ≡ self.now.asked }
    {
        self.pool.asked()
    }

    /// What was shown since the last `sentence` began.
    pub fn shown(&self) -> &[u8]
        ensures { result.now ≡ self.now.state.shown }
    {
        &self.shown
    }

    /// Executes a top sentence and shows its value.
    pub fn sentence(&mut self, s: &Prepared) -> Outcome
        requires { s.now ≢ [] }
        ensures answer { self.old.readiness ≡ ready → Answers result self.new (top s.now self.old.state) }
        ensures stays { Stays self.old.readiness result self.old self.new }
        ensures budget { self.new.state.budget ≡ self.old.state.budget }
    {
        self.shown.clear();
        match self.fitness {
            Fitness::Ready => {
                let outcome = self.execute(s.items());
                self.settle(outcome)
            }
            Fitness::Spent => Outcome::Spent,
            Fitness::Exhausted => Outcome::NoMemory,
        }
    }

    // What a sentence answers, and what that leaves the machine fit for.
    fn settle(&mut self, outcome: Result<Entity, Halt>) -> Outcome
        requires { self.old.readiness ≡ ready }
        ensures answer { (o : OutcomeOf EntityTree) → MeetsAs entity_of outcome self.old o → Answers result self.new o }
        ensures budget { self.new.state.budget ≡ self.old.state.budget }
    {
        match outcome {
            Ok(e) => Outcome::Value(e),
            Err(Halt::Failed(fault)) => Outcome::Failed(fault),
            Err(Halt::Spent) => {
                self.fitness = Fitness::Spent;
                Outcome::Spent
            }
            Err(Halt::NoMemory) => {
                self.fitness = Fitness::Exhausted;
                self.shown.clear();
                Outcome::NoMemory
            }
        }
    }

    /// One call of a verb on a noun, which isn't a step itself.
    pub fn apply_monad(&mut self, v: &Verb, y: &Noun) -> Result<Noun, Halt>
        ensures answer { self.old.readiness ≡ ready → AnswersCall result self.new (call (nested most_levels) v.now None y.now self.old.state) }
        ensures stays { StaysIn self.old.readiness result self.old self.new }
        ensures budget { self.new.state.budget ≡ self.old.state.budget }
    {
        self.apply_to(v, None, y)
    }

    /// One call of a verb on two nouns, which isn't a step itself.
    pub fn apply_dyad(&mut self, v: &Verb, x: &Noun, y: &Noun) -> Result<Noun, Halt>
        ensures answer { self.old.readiness ≡ ready → AnswersCall result self.new (call (nested most_levels) v.now (Some x.now) y.now self.old.state) }
        ensures stays { StaysIn self.old.readiness result self.old self.new }
        ensures budget { self.new.state.budget ≡ self.old.state.budget }
    {
        self.apply_to(v, Some(x), y)
    }

    // A call of a verb, where the machine goes on.
    fn apply_to(&mut self, v: &Verb, x: Option<&Noun>, y: &Noun) -> Result<Noun, Halt>
        ensures answer { self.old.readiness ≡ ready → AnswersCall result self.new (call (nested most_levels) v.now (option_copied x.entry) y.now self.old.state) }
        ensures stays { StaysIn self.old.readiness result self.old self.new }
        ensures budget { self.new.state.budget ≡ self.old.state.budget }
    {
        match self.fitness {
            Fitness::Ready => {
                let answer = self.call(most_levels(), v, x, y);
                self.settle_call(answer)
            }
            Fitness::Spent => Err(Halt::Spent),
            Fitness::Exhausted => Err(Halt::NoMemory),
        }
    }

    // What a call answers, and what that leaves the machine fit for.
    fn settle_call(&mut self, answer: Result<Noun, Halt>) -> Result<Noun, Halt>
        requires { self.old.readiness ≡ ready }
        ensures answer { (o : OutcomeOf Array) → Meets answer self.old o → AnswersCall result self.new o }
        ensures budget { self.new.state.budget ≡ self.old.state.budget }
    {
        match answer {
            Err(Halt::Spent) => self.fitness = Fitness::Spent,
            Err(Halt::NoMemory) => {
                self.fitness = Fitness::Exhausted;
                self.shown.clear();
            }
            _ => {}
        }
        answer
    }

    // Evaluates a sentence and shows its value.
    fn execute(&mut self, items: &[Item]) -> Result<Entity, Halt>
        ensures gives { MeetsAs entity_of result self.new (executed (nested most_levels) (mapped word_of items.now) self.old.state) }
        ensures budget { self.new.state.budget ≡ self.old.state.budget }
        ensures readiness { self.new.readiness ≡ self.old.readiness }
    {
        let (e, quiet) = self.evaluate(most_levels(), items)?;
        self.show_unless(quiet, &e)?;
        Ok(e)
    }

    // Shows a value, unless it is assigned.
    fn show_unless(&mut self, quiet: bool, e: &Entity) -> Result<(), Halt>
        ensures gives { Meets result self.new (show_unless quiet (entity_of e.now) self.old.state) }
        ensures budget { self.new.state.budget ≡ self.old.state.budget }
        ensures readiness { self.new.readiness ≡ self.old.readiness }
    {
        if quiet { Ok(()) } else { self.show(e) }
    }

    pub(crate) fn alloc(&self) -> Global {
        self.pool.alloc()
    }

    // What a name holds.
    pub(crate) fn found(&self, name: &Name) -> Result<Option<&Entity>, Halt>
        ensures { MeetsAs (λ o. option_map (λ e. entity_of e.now) o) result self.now (found name.now self.now.state) }
    {
        Ok(self.names.get(name)?)
    }

    // The locale that a locative names, none for a simple name.
    #[tactic(auto, using(crate::proofs::Visits::refused_part))]
    pub(crate) fn locale_named(&self, name: &Name) -> Result<Option<Text>, Halt>
        ensures { Meets result self.now (locale_named name.now self.now.state) }
    {
        Ok(self.names.locale(name)?)
    }

    // Makes a locale the current one, and hands back the one that was.
    pub(crate) fn switch_locale(&mut self, to: Text) -> Text
        ensures former { result ≡ self.old.state.names.current }
        ensures now { self.new ≡ record self.old { state = in_locale to self.old.state } }
    {
        self.names.switch_locale(to)
    }

    // The verb that a name holds.
    pub(crate) fn verb_named(&self, name: &Name) -> Result<Verb, Halt>
        ensures { Meets result self.now (verb_named name.now self.now.state) }
    {
        match self.found(name)? {
            Some(Entity::Verb(v)) => Ok(v.duplicate()?),
            Some(Entity::Noun(_) | Entity::Adverb(_) | Entity::Conjunction(_)) | None => {
                Err(Halt::Failed(Fault::Value))
            }
        }
    }

    // Gives a name what it holds, by `=.` or by `=:`.
    #[tactic(auto, using(crate::proofs::Parts::set_err, crate::proofs::Parts::set_ok))]
    pub(crate) fn set_name(&mut self, local: bool, name: Name, e: Entity) -> Result<(), Halt>
        ensures gives { Meets result self.new (set_name local name (entity_of e) self.old.state) }
        ensures onward { Onward self.old self.new }
    {
        if local {
            Ok(self.names.set_local(name, e)?)
        } else {
            Ok(self.names.set_global(name, e)?)
        }
    }

    // Where a copula puts what a name is given.
    #[tactic(auto, using(crate::proofs::Visits::refused_part))]
    pub(crate) fn target(&self, name: &Name, local: bool) -> Result<Target, Halt>
        ensures { Meets result self.now (or_fault (target_of local self.now.state.names name.now) self.now.state) }
    {
        Ok(self.names.target(name, local)?)
    }

    // Lets a name hold this entity at a target.
    pub(crate) fn put(&mut self, target: &Target, name: &Text, e: Entity) -> Result<(), Halt>
        ensures gives { NoMemoryOr result (λ _. self.new.state ≡ record self.old.state { names = put self.old.state.names target.now name.now (entity_of e) }) }
        ensures onward { Onward self.old self.new }
    {
        Ok(self.names.put(target, name, e)?)
    }

    // Counts a step.
    pub(crate) fn tick(&mut self) -> Result<(), Halt>
        ensures gives { Meets result self.new (one_step self.old.state) }
        ensures onward { Onward self.old self.new }
    {
        if self.steps < self.budget {
            self.steps += 1;
            Ok(())
        } else {
            Err(Halt::Spent)
        }
    }

    // Shows a value.
    pub(crate) fn show(&mut self, e: &Entity) -> Result<(), Halt>
        ensures gives { Meets result self.new (show (entity_of e.now) self.old.state) }
        ensures onward { Onward self.old self.new }
    {
        let Some(room) = MOST_SHOWN.checked_sub(self.shown.len()) else {
            return Err(Halt::Failed(Fault::Limit));
        };
        Ok(display::show(&mut self.pool, e, room, &mut self.shown)?)
    }
}
