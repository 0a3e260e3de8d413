// Collecting results, and the noun that they become.
ghost use Rattle.std.specs.Prelude.{◌≡◌, ◌++◌, [], ◌∷◌, length, max, OnOk, OnErr, IfOk};
ghost use Rattle.j_definitions.specs.Array.{product};
ghost use Rattle.j_noun.specs.Refused.{OrWanting};
ghost use Rattle.j_rank.specs.Assembly.{assemble};

use crate::common::common_shape;
use crate::gathering::gather;
use crate::kinds::joined_kind;
use crate::sizes::{extended, size_within};
use j_noun::{Fault, NoMemory, Noun, Pool, Refusal, Shape, boxes};
use std::marker::Model;

/// Results in the order of a frame. The first one takes the buffer.
#[derive(Drop)]
pub struct Collector {
    frame: Shape,
    results: Option<Vec<Noun>>,
}

impl Model for Collector {
    ghost use Rattle.j_rank.specs.Collected.{Collected, collected_code, results_kept};

    ghost Value = { Collected };

    ghost coded = { collected_code };

    ghost view = { λ c. record { frame = c.frame; results = results_kept c.results } };
}

// The noun of the results of a frame.
fn assemble(pool: &mut Pool, frame: Shape, results: &[Noun]) -> Result<Noun, Refusal>
    requires { length results.now ≡ max (product frame) 1 }
    ensures { OrWanting (assemble frame results.now) result }
{
    let Some(kind) = joined_kind(results) else {
        return Err(Refusal::Fault(Fault::Domain));
    };
    let common = common_shape(results);
    let Ok(shape) = extended(frame, common.axes()) else {
        return Err(Refusal::Fault(Fault::Limit));
    };
    let Some(total) = size_within(shape.axes()) else {
        return Err(Refusal::Fault(Fault::Limit));
    };
    let atoms = gather(pool, kind, common.axes(), total, results)?;
    Noun::make(pool, shape, atoms)
}

// A buffer for the results of a frame, with the first one.
fn begun(pool: &mut Pool, frame: &Shape, first: Noun) -> Result<Vec<Noun>, NoMemory>
    ensures { IfOk result (λ v. v.items ≡ first ∷ []) }
{
    let count = match size_within(frame.axes()) {
        Some(count) => count,
        None => 1,
    };
    let mut results = boxes(pool, count)?;
    match results.push(first) {
        Ok(()) => Ok(results),
        Err(_) => Err(NoMemory),
    }
}

impl Collector {
    /// No results yet, and no memory.
    pub fn new(frame: Shape) -> Collector
        ensures { result ≡ record { frame = frame; results = [] } }
    {
        Collector {
            frame,
            results: None,
        }
    }

    /// Takes the next result.
    pub fn push(&mut self, pool: &mut Pool, cell: Noun) -> Result<(), NoMemory>
        ensures ok { OnOk result (self.new ≡ record { frame = self.old.frame; results = self.old.results ++ cell ∷ [] }) }
        ensures err { OnErr result (self.new ≡ self.old) }
    {
        if let Some(results) = &mut self.results {
            return match results.push(cell) {
                Ok(()) => Ok(()),
                Err(_) => Err(NoMemory),
            };
        }
        let results = begun(pool, &self.frame, cell)?;
        self.results = Some(results);
        Ok(())
    }

    /// The noun of the results. Where the frame holds a 0, the one result says its kind and the rest of its shape.
    pub fn finish(self, pool: &mut Pool) -> Result<Noun, Refusal>
        requires { length self.results ≡ max (product self.frame) 1 }
        ensures { OrWanting (assemble self.frame self.results) result }
    {
        let Collector { frame, results } = self;
        match results {
            Some(results) => assemble(pool, frame, &results),
            None => assemble(pool, frame, &[]),
        }
    }
}
