// What a run answers.
ghost use Rattle.std.specs.Prelude.{◌≡◌};
ghost use Rattle.j_eval.specs.declared.outcome.Halt.TheVariants.{Failed as HaltFailed, NoMemory as HaltMemory};
ghost use Rattle.j_eval.specs.Halting.{halt_of, halted};

use j_entity::Entity;
use j_noun::{Fault, NoMemory, Noun, Refusal};

/// What a top sentence answers.
#[derive(Drop)]
pub enum Outcome {
    Value(Entity),
    Failed(Fault),
    Spent,
    NoMemory,
}

/// Why a run gives nothing.
#[derive(Clone, Copy, PartialEq, Eq, Debug)]
pub enum Halt {
    Failed(Fault),
    Spent,
    NoMemory,
}

impl From<NoMemory> for Halt {
    ghost from_gives = { λ _ e. e ≡ HaltMemory };

    fn from(_e: NoMemory) -> Halt {
        Halt::NoMemory
    }
}

impl From<Refusal> for Halt {
    ghost from_gives = { λ r h. h ≡ halt_of r };

    fn from(r: Refusal) -> Halt {
        match r {
            Refusal::Fault(fault) => Halt::Failed(fault),
            Refusal::NoMemory => Halt::NoMemory,
        }
    }
}

impl From<Fault> for Halt {
    ghost from_gives = { λ f h. h ≡ HaltFailed f };

    fn from(fault: Fault) -> Halt {
        Halt::Failed(fault)
    }
}

/// What a call answers, as a part of a run.
pub fn or_halt(answer: Result<Noun, Refusal>) -> Result<Noun, Halt>
    ensures { result ≡ halted answer }
{
    Ok(answer?)
}
