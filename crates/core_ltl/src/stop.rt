//! Why a formula is not added to a closure. May touch nothing.

ghost use Rattle.std.specs.Prelude.{◌≡◌};
ghost use Rattle.core_ltl.specs.declared.stop.ClosureStop.TheVariants.{NoMemory as out_of_memory};

use port_types::NoMemory;
use std::alloc::AllocFailed;

/// The closure would have more nodes than the limit, or there is no memory.
#[derive(Debug, Drop)]
pub enum ClosureStop {
    TooLarge,
    NoMemory,
}

impl From<NoMemory> for ClosureStop {
    ghost from_gives = { λ _ stop. stop ≡ out_of_memory };

    fn from(_error: NoMemory) -> ClosureStop {
        ClosureStop::NoMemory
    }
}

impl<T: Drop> From<AllocFailed<T>> for ClosureStop {
    ghost from_gives = { λ _ stop. stop ≡ out_of_memory };

    fn from(_failed: AllocFailed<T>) -> ClosureStop {
        ClosureStop::NoMemory
    }
}
