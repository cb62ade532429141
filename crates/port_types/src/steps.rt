//! Counters of steps, lent to code whose steps are bounded by a contract. They touch nothing else.

ghost use Rattle.std.specs.Prelude.{◌≡◌};
ghost use Rattle.port_types.specs.Counts.{next_count};

use std::marker::{Model, PhantomData};

/// Names a count of steps. It has no calls.
pub trait StepLedger {}

/// A count of steps. Contracts see it as a whole number.
///
/// It is neither `Clone` nor `Copy`, so code that is generic in `L` can neither make nor reset the
/// counter that it is lent.
#[derive(Drop)]
pub struct Steps<L: StepLedger> {
    count: u64,
    ledger: PhantomData<L>,
}

impl<L: StepLedger> Model for Steps<L> {
    ghost use Rattle.std.specs.Prelude.{ℕ};

    ghost Value = { ℕ };

    ghost view = { λ s. s.count };
}

impl<L: StepLedger> Steps<L> {
    /// Counts one step more; at 2^64 - 1 the count stays.
    pub fn tick(&mut self)
        ensures { self.new ≡ next_count self.old }
    {
        self.count = self.count.saturating_add(1);
    }

    /// The number of steps so far.
    pub fn count(&self) -> u64
        ensures { result ≡ self.now }
    {
        self.count
    }
}

impl Steps<OneRun> {
    /// A count that begins at 0.
    pub fn start() -> Steps<OneRun>
        ensures { result ≡ 0 }
    {
        Steps {
            count: 0,
            ledger: PhantomData,
        }
    }
}

/// The ledger of one run.
#[derive(Clone, Copy, Debug)]
pub struct OneRun;

impl StepLedger for OneRun {}
