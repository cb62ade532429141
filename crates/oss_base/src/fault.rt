//! Kinds of fault with their numbers and words, and why a call on a file stops. No call touches memory.

ghost use Rattle.std.specs.Prelude.{◌≡◌};
ghost use Rattle.oss_base.specs.Faults.{fault_number, fault_text};

use crate::place::Place;
use port_types::NoMemory;
use std::alloc::{AllocError, AllocFailed};

/// The kinds of fault that a file is refused for, named by the numbers that are printed.
#[derive(Clone, Copy, Debug, PartialEq, Eq)]
pub enum FaultKind {
    F0,
    F1,
    F2,
    F3,
    F4,
    F5,
    F6,
    F7,
    F8,
    F9,
    F10,
    F11,
    F12,
    F13,
    F14,
    F15,
    F16,
    F17,
    F18,
    F19,
    F20,
    F21,
    F22,
    F23,
    F24,
    F25,
    F26,
    F27,
    F28,
    F29,
    F30,
}

impl FaultKind {
    /// The number that is printed for this kind of fault.
    pub fn number(self) -> u8
        ensures { result ≡ fault_number self }
    {
        match self {
            FaultKind::F0 => 0,
            FaultKind::F1 => 1,
            FaultKind::F2 => 2,
            FaultKind::F3 => 3,
            FaultKind::F4 => 4,
            FaultKind::F5 => 5,
            FaultKind::F6 => 6,
            FaultKind::F7 => 7,
            FaultKind::F8 => 8,
            FaultKind::F9 => 9,
            FaultKind::F10 => 10,
            FaultKind::F11 => 11,
            FaultKind::F12 => 12,
            FaultKind::F13 => 13,
            FaultKind::F14 => 14,
            FaultKind::F15 => 15,
            FaultKind::F16 => 16,
            FaultKind::F17 => 17,
            FaultKind::F18 => 18,
            FaultKind::F19 => 19,
            FaultKind::F20 => 20,
            FaultKind::F21 => 21,
            FaultKind::F22 => 22,
            FaultKind::F23 => 23,
            FaultKind::F24 => 24,
            FaultKind::F25 => 25,
            FaultKind::F26 => 26,
            FaultKind::F27 => 27,
            FaultKind::F28 => 28,
            FaultKind::F29 => 29,
            FaultKind::F30 => 30,
        }
    }

    /// The words that are printed for this kind of fault.
    pub fn text(self) -> &'static str
        ensures { result.now ≡ fault_text self }
    {
        match self {
            FaultKind::F0 => "not built yet",
            FaultKind::F1 => "file too long",
            FaultKind::F2 => "bad byte",
            FaultKind::F3 => "syntax",
            FaultKind::F4 => "numeral too large",
            FaultKind::F5 => "nesting too deep",
            FaultKind::F6 => "component named twice",
            FaultKind::F7 => "no system component",
            FaultKind::F8 => "two system components",
            FaultKind::F9 => "name clash",
            FaultKind::F10 => "unknown component",
            FaultKind::F11 => "component contains itself",
            FaultKind::F12 => "subcomponent named twice",
            FaultKind::F13 => "unknown port",
            FaultKind::F14 => "not a connection target",
            FaultKind::F15 => "connected twice",
            FaultKind::F16 => "type mismatch",
            FaultKind::F17 => "empty range",
            FaultKind::F18 => "enumerator named twice",
            FaultKind::F19 => "unknown contract",
            FaultKind::F20 => "contract refined twice",
            FaultKind::F21 => "sub-contract listed twice",
            FaultKind::F22 => "unsupported type",
            FaultKind::F23 => "unsupported construct",
            FaultKind::F24 => "unknown subcomponent",
            FaultKind::F25 => "too many components",
            FaultKind::F26 => "too many instances",
            FaultKind::F27 => "too many sub-contracts",
            FaultKind::F28 => "level too large",
            FaultKind::F29 => "too many value bits",
            FaultKind::F30 => "too many guards",
        }
    }
}

/// A fault of a file, and where it stands.
#[derive(Clone, Copy, Debug, PartialEq, Eq)]
pub struct Fault {
    pub kind: FaultKind,
    pub place: Place,
}

/// Why the reading of a file stopped.
#[derive(Clone, Copy, Debug, PartialEq, Eq)]
pub enum Stop {
    Fault(Fault),
    NoMemory,
}

impl From<NoMemory> for Stop {
    ghost use Rattle.std.specs.Prelude.{◌≡◌};
    ghost use Rattle.oss_base.specs.declared.fault.Stop.TheVariants.{NoMemory};

    ghost from_gives = { λ _ stop. stop ≡ NoMemory };

    fn from(_refused: NoMemory) -> Stop {
        Stop::NoMemory
    }
}

impl From<AllocError> for Stop {
    ghost use Rattle.std.specs.Prelude.{◌≡◌};
    ghost use Rattle.oss_base.specs.declared.fault.Stop.TheVariants.{NoMemory};

    ghost from_gives = { λ _ stop. stop ≡ NoMemory };

    fn from(_error: AllocError) -> Stop {
        Stop::NoMemory
    }
}

impl<T: Drop> From<AllocFailed<T>> for Stop {
    ghost use Rattle.std.specs.Prelude.{◌≡◌};
    ghost use Rattle.oss_base.specs.declared.fault.Stop.TheVariants.{NoMemory};

    ghost from_gives = { λ _ stop. stop ≡ NoMemory };

    fn from(_failed: AllocFailed<T>) -> Stop {
        Stop::NoMemory
    }
}
