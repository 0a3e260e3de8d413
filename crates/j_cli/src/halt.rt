// Why a run ends before the end of its text, phase by phase.
ghost use Rattle.std.specs.Prelude.{◌≡◌};
ghost use Rattle.j_cli.specs.Halts.{words_status, read_status, run_status, halt_status, status_by};
ghost use Rattle.j_cli.specs.declared.halt.WordsHalt.TheVariants as words_halt;
ghost use Rattle.j_cli.specs.declared.halt.ReadHalt.TheVariants as read_halt;
ghost use Rattle.j_cli.specs.declared.halt.RunHalt.TheVariants as run_halt;
ghost use Rattle.j_cli.specs.declared.halt.Halt.TheVariants as halt;

use j_io::Failed;
use j_noun::NoMemory;
use std::alloc::AllocError;

/// Why the words of a command ask for no text.
#[derive(Clone, Copy, Debug, PartialEq, Eq)]
pub enum WordsHalt {
    NoMemory,
    Refused,
}

/// Why a text wasn't read.
#[derive(Clone, Copy, Debug, PartialEq, Eq)]
pub enum ReadHalt {
    NoMemory,
    Failed,
    TooLong,
}

/// Why a run ended before its last line.
#[derive(Clone, Copy, Debug, PartialEq, Eq)]
pub enum RunHalt {
    NoMemory,
    Stopped,
    Spent,
    Failed,
}

/// Why a text wasn't executed to its end.
#[derive(Clone, Copy, Debug, PartialEq, Eq)]
pub enum Halt {
    Reading(ReadHalt),
    Running(RunHalt),
}

impl WordsHalt {
    pub fn status(self) -> u8
        ensures { result ≡ words_status self }
    {
        match self {
            WordsHalt::NoMemory => 1,
            WordsHalt::Refused => 2,
        }
    }
}

pub fn status(outcome: Result<(), Halt>) -> u8
    ensures { result ≡ status_by halt_status outcome }
{
    match outcome {
        Ok(()) => 0,
        Err(Halt::Reading(ReadHalt::NoMemory) | Halt::Running(RunHalt::NoMemory)) => 1,
        Err(Halt::Running(RunHalt::Stopped)) => 3,
        Err(Halt::Running(RunHalt::Spent)) => 4,
        Err(Halt::Reading(ReadHalt::Failed)) => 5,
        Err(Halt::Running(RunHalt::Failed)) => 6,
        Err(Halt::Reading(ReadHalt::TooLong)) => 7,
    }
}

impl From<AllocError> for WordsHalt {
    ghost from_gives = { λ _ e. e ≡ words_halt.NoMemory };

    fn from(_: AllocError) -> Self {
        WordsHalt::NoMemory
    }
}

impl From<AllocError> for ReadHalt {
    ghost from_gives = { λ _ e. e ≡ read_halt.NoMemory };

    fn from(_: AllocError) -> Self {
        ReadHalt::NoMemory
    }
}

impl From<Failed> for ReadHalt {
    ghost from_gives = { λ _ e. e ≡ read_halt.Failed };

    fn from(_: Failed) -> Self {
        ReadHalt::Failed
    }
}

impl From<AllocError> for RunHalt {
    ghost from_gives = { λ _ e. e ≡ run_halt.NoMemory };

    fn from(_: AllocError) -> Self {
        RunHalt::NoMemory
    }
}

impl From<NoMemory> for RunHalt {
    ghost from_gives = { λ _ e. e ≡ run_halt.NoMemory };

    fn from(_: NoMemory) -> Self {
        RunHalt::NoMemory
    }
}

impl From<Failed> for RunHalt {
    ghost from_gives = { λ _ e. e ≡ run_halt.Failed };

    fn from(_: Failed) -> Self {
        RunHalt::Failed
    }
}

impl From<ReadHalt> for Halt {
    ghost from_gives = { λ h e. e ≡ halt.Reading h };

    fn from(halt: ReadHalt) -> Self {
        Halt::Reading(halt)
    }
}

impl From<RunHalt> for Halt {
    ghost from_gives = { λ h e. e ≡ halt.Running h };

    fn from(halt: RunHalt) -> Self {
        Halt::Running(halt)
    }
}
