// Why a call gives no noun.
ghost use Rattle.std.specs.Prelude.{◌≡◌};
ghost use Rattle.j_noun.specs.declared.refusal.Refusal.TheVariants.{NoMemory as RefusedMemory, Fault as RefusedFault};

use j_definitions::Fault;
use j_pool::NoMemory;

#[derive(Clone, Copy, PartialEq, Eq, Debug)]
pub enum Refusal {
    Fault(Fault),
    NoMemory,
}

impl From<NoMemory> for Refusal {
    ghost from_gives = { λ _ e. e ≡ RefusedMemory };

    fn from(_e: NoMemory) -> Refusal {
        Refusal::NoMemory
    }
}

impl From<Fault> for Refusal {
    ghost from_gives = { λ f e. e ≡ RefusedFault f };

    fn from(f: Fault) -> Refusal {
        Refusal::Fault(f)
    }
}
