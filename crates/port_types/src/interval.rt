//! Intervals of whole numbers: their exact sums and differences. No call touches memory.

ghost use Rattle.std.specs.Prelude.{◌≡◌, ◌+ℤ◌, ◌-ℤ◌};
ghost use Rattle.port_types.specs.Intervals.{HasShortEnds, AreSums, AreDifferences};

/// The whole numbers from `lo` to `hi`, none where `hi` is below `lo`.
#[derive(Clone, Copy, Debug, PartialEq, Eq)]
pub struct Interval {
    pub lo: i64,
    pub hi: i64,
}

impl Interval {
    /// The sums of a number of this interval and one of the other.
    pub fn plus(self, other: Interval) -> Interval
        requires left { HasShortEnds self }
        requires right { HasShortEnds other }
        ensures ends { result ≡ record { lo = self.lo +ℤ other.lo; hi = self.hi +ℤ other.hi } }
        ensures exact { AreSums self other result }
    {
        Interval {
            lo: self.lo + other.lo,
            hi: self.hi + other.hi,
        }
    }

    /// The differences of a number of this interval and one of the other.
    pub fn minus(self, other: Interval) -> Interval
        requires left { HasShortEnds self }
        requires right { HasShortEnds other }
        ensures ends { result ≡ record { lo = self.lo -ℤ other.hi; hi = self.hi -ℤ other.lo } }
        ensures exact { AreDifferences self other result }
    {
        Interval {
            lo: self.lo - other.hi,
            hi: self.hi - other.lo,
        }
    }
}
