//! Why the reading halted. Main item: `Halt`. Touches nothing.

use port_types::NoMemory;
use std::alloc::{AllocError, AllocFailed};

/// Where a list of terminals stops being the beginning of a text: how many terminals are left from
/// there on, and whether it would go on but for the limit on height.
#[derive(Clone, Copy, Debug, PartialEq, Eq)]
pub struct Break {
    pub left: usize,
    pub deep: bool,
}

/// Why the reading halted.
#[derive(Clone, Copy, Debug, PartialEq, Eq)]
pub enum Halt {
    Broken(Break),
    NoMemory,
}

impl From<NoMemory> for Halt {
    ghost use Rattle.std.specs.Prelude.{◌≡◌};
    ghost use Rattle.oss_reader.specs.declared.halt.Halt.TheVariants.{NoMemory};

    ghost from_gives = { λ _ halt. halt ≡ NoMemory };

    fn from(_refused: NoMemory) -> Halt {
        Halt::NoMemory
    }
}

impl From<AllocError> for Halt {
    ghost use Rattle.std.specs.Prelude.{◌≡◌};
    ghost use Rattle.oss_reader.specs.declared.halt.Halt.TheVariants.{NoMemory};

    ghost from_gives = { λ _ halt. halt ≡ NoMemory };

    fn from(_error: AllocError) -> Halt {
        Halt::NoMemory
    }
}

impl<T: Drop> From<AllocFailed<T>> for Halt {
    ghost use Rattle.std.specs.Prelude.{◌≡◌};
    ghost use Rattle.oss_reader.specs.declared.halt.Halt.TheVariants.{NoMemory};

    ghost from_gives = { λ _ halt. halt ≡ NoMemory };

    fn from(_failed: AllocFailed<T>) -> Halt {
        Halt::NoMemory
    }
}
