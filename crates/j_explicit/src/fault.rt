// Why a line has no sentence.
ghost use Rattle.std.specs.Prelude.{◌≡◌};
ghost use Rattle.j_explicit.specs.Refusals.{refused_word, refused_number, refused_noun};
ghost use Rattle.j_explicit.specs.declared.fault.LineFault.TheVariants.{Fault as LineError, NoMemory as LineMemory};

use j_noun::{Fault, NoMemory, Refusal};
use j_numbers::NumberFault;
use j_words::WordFault;
use std::alloc::AllocError;

/// Why a line has no sentence.
#[derive(Clone, Copy, PartialEq, Eq, Debug)]
pub enum LineFault {
    Fault(Fault),
    NoMemory,
}

impl From<WordFault> for LineFault {
    ghost from_gives = { λ f e. e ≡ refused_word f };

    fn from(fault: WordFault) -> LineFault {
        match fault {
            WordFault::OpenQuote => LineFault::Fault(Fault::OpenQuote),
            WordFault::Spelling => LineFault::Fault(Fault::Spelling),
            WordFault::Nonce => LineFault::Fault(Fault::Nonce),
            WordFault::NoMemory => LineFault::NoMemory,
        }
    }
}

impl From<NumberFault> for LineFault {
    ghost from_gives = { λ f e. e ≡ refused_number f };

    fn from(fault: NumberFault) -> LineFault {
        match fault {
            NumberFault::IllFormed => LineFault::Fault(Fault::IllFormed),
            NumberFault::Overflow => LineFault::Fault(Fault::Overflow),
            NumberFault::Limit => LineFault::Fault(Fault::Limit),
            NumberFault::NoMemory => LineFault::NoMemory,
        }
    }
}

impl From<Refusal> for LineFault {
    ghost from_gives = { λ r e. e ≡ refused_noun r };

    fn from(refusal: Refusal) -> LineFault {
        match refusal {
            Refusal::Fault(fault) => LineFault::Fault(fault),
            Refusal::NoMemory => LineFault::NoMemory,
        }
    }
}

impl From<Fault> for LineFault {
    ghost from_gives = { λ f e. e ≡ LineError f };

    fn from(fault: Fault) -> LineFault {
        LineFault::Fault(fault)
    }
}

impl From<NoMemory> for LineFault {
    ghost from_gives = { λ _ e. e ≡ LineMemory };

    fn from(_e: NoMemory) -> LineFault {
        LineFault::NoMemory
    }
}

impl From<AllocError> for LineFault {
    ghost from_gives = { λ _ e. e ≡ LineMemory };

    fn from(_e: AllocError) -> LineFault {
        LineFault::NoMemory
    }
}
