// The verbs that change the state of a run.
ghost use Rattle.std.specs.Prelude.{◌≡◌, [], ◌∷◌, IfOk};
ghost use Rattle.std.specs.Option.{option_copied};
ghost use Rattle.j_eval.specs.Meets.{Meets, Onward};
ghost use Rattle.j_eval.specs.RunVerbs.{run_verb as run_verb_of, no_rows, echo, cocurrent, in_run, spoken};

use crate::machine::Machine;
use crate::outcome::{Halt, or_halt};
use j_entity::{Entity, Primitive};
use j_leaves::Text;
use j_names::locale_given;
use j_noun::{Atoms, Fault, NoMemory, Noun, Pool, Shape};

/// A verb that changes the state of a run.
#[derive(Clone, Copy, PartialEq, Eq, Debug)]
pub enum RunVerb {
    Echo,
    Cocurrent,
}

/// Which verb of a run a word is, if it is one.
pub fn run_verb(p: Primitive) -> Option<RunVerb>
    ensures { result ≡ run_verb_of p }
{
    match p {
        Primitive::Echo => Some(RunVerb::Echo),
        Primitive::Cocurrent => Some(RunVerb::Cocurrent),
        _ => None,
    }
}

// `i. 0 0`.
fn no_rows(pool: &mut Pool) -> Result<Noun, NoMemory>
    ensures { IfOk result (λ n. n ≡ no_rows) }
{
    let mut shape = Shape::new();
    let (Ok(()), Ok(())) = (shape.add(0), shape.add(0)) else {
        return Err(NoMemory);
    };
    match Noun::make(pool, shape, Atoms::Wholes(Vec::new(pool.alloc()))) {
        Ok(noun) => Ok(noun),
        Err(_) => Err(NoMemory),
    }
}

impl Machine {
    // Shows a noun.
    fn echo(&mut self, y: &Noun) -> Result<Noun, Halt>
        ensures gives { Meets result self.new (echo y.now self.old.state) }
        ensures onward { Onward self.old self.new }
    {
        let e = Entity::Noun(y.duplicate()?);
        self.show(&e)?;
        Ok(no_rows(&mut self.pool)?)
    }

    // Makes the locale of a text, or of a box of it, the current one.
    fn cocurrent(&mut self, y: &Noun) -> Result<Noun, Halt>
        ensures gives { Meets result self.new (cocurrent y.now self.old.state) }
        ensures onward { Onward self.old self.new }
    {
        let Some(locale) = locale_given(y) else {
            return Err(Halt::Failed(Fault::Domain));
        };
        let Ok(locale) = Vec::from_slice(self.alloc(), locale) else {
            return Err(Halt::NoMemory);
        };
        let none = no_rows(&mut self.pool)?;
        self.switch_locale(Text::make(locale));
        Ok(none)
    }

    // A verb of a run, which has no dyad.
    fn in_run(&mut self, v: RunVerb, x: Option<&Noun>, y: &Noun) -> Result<Noun, Halt>
        ensures gives { Meets result self.new (in_run v (option_copied x.entry) y.now self.old.state) }
        ensures onward { Onward self.old self.new }
    {
        if x.is_some() {
            return Err(Halt::Failed(Fault::Domain));
        }
        match v {
            RunVerb::Echo => self.echo(y),
            RunVerb::Cocurrent => self.cocurrent(y),
        }
    }

    // A word on one cell or two.
    #[tactic(auto, using(crate::proofs::Visits::spoken_word, crate::proofs::Visits::spoken_run))]
    pub(crate) fn word(&mut self, p: Primitive, x: Option<&Noun>, y: &Noun) -> Result<Noun, Halt>
        ensures gives { Meets result self.new (spoken p (option_copied x.entry) y.now self.old.state) }
        ensures onward { Onward self.old self.new }
    {
        if let Some(v) = run_verb(p) {
            return self.in_run(v, x, y);
        }
        // At two places, so that it keeps a frame of its own.
        match x {
            Some(_) => or_halt(j_verbs::cell(&mut self.pool, p, x, y)),
            None => or_halt(j_verbs::cell(&mut self.pool, p, None, y)),
        }
    }
}
