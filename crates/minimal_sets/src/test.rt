//! Tests of sets, as a trait. A call touches what the implementing type stands for, and one step of the counter.

ghost use Rattle.std.specs.Prelude.{◌≡◌, ◌↔◌, IsTrue, IfOk};
ghost use Rattle.port_types.specs.Counts.{next_count};
ghost use Rattle.port_types.specs.declared.sets.Set24.{Set24};
ghost use Rattle.minimal_sets.specs.Families.{IsUpwardClosed, IsSameFamily};

use port_types::{NoMemory, Set24, StepLedger, Steps};

/// A family of sets that is closed upwards, and a test of what belongs to it. Calls do not change the family.
pub trait Test<L: StepLedger> {
    /// The sets that belong to the family.
    ghost family: { Self → Set24 → Type 0 };

    /// Whether a set belongs to the family. Each call is one step.
    fn holds(&mut self, set: Set24, steps: &mut Steps<L>) -> Result<bool, NoMemory>
        ensures answer { IfOk result (λ yes. IsTrue yes ↔ family self.old set) }
        ensures same { IsSameFamily (family self.new) (family self.old) }
        ensures step { steps.new ≡ next_count steps.old };

    /// The family is closed upwards.
    ghost upward: { (test : Self) → IsUpwardClosed (family test) };
}
