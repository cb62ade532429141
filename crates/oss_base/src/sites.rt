//! Sites of faults, and an accumulator that keeps the first of those that it is told. No call touches
//! memory.

ghost use Rattle.std.specs.Prelude.{◌≡◌};

use crate::fault::FaultKind;

/// A kind of fault, and the offset in bytes at which it stands.
#[derive(Clone, Copy, Debug, PartialEq, Eq)]
pub struct FaultSite {
    pub kind: FaultKind,
    pub offset: u32,
}

impl FaultSite {
    ghost use Rattle.oss_base.specs.Sites.{goes_before};

    /// Whether this site goes before another: at a lesser offset, or at the same one with a kind of
    /// a lesser number.
    pub fn goes_before(self, other: FaultSite) -> bool
        ensures { result ≡ goes_before self other }
    {
        self.offset < other.offset
            || (self.offset == other.offset && self.kind.number() < other.kind.number())
    }
}
