ghost use Rattle.std.specs.Prelude.{◌≡◌};
ghost use Rattle.j_numbers.specs.declared.fault.NumberFault.TheVariants.{NoMemory as FaultMemory};

use j_noun::NoMemory;

/// Why a number word gives nothing.
#[derive(Clone, Copy, PartialEq, Eq, Debug)]
pub enum NumberFault {
    IllFormed,
    Overflow,
    Limit,
    NoMemory,
}

impl From<NoMemory> for NumberFault {
    ghost from_gives = { λ _ f. f ≡ FaultMemory };

    fn from(_e: NoMemory) -> NumberFault {
        NumberFault::NoMemory
    }
}
