//! From a member to a minimal one, and from a set outside to a maximal one, by one test for each place. They touch the
//! test and the counter of steps that they are lent.

ghost use Rattle.std.specs.Prelude.{◌≡◌, ℕ, ◌+◌, ◌<◌, ◌≤◌, ◌↔◌, IfOk};
ghost use Rattle.port_types.specs.Limits.{most_parts};
ghost use Rattle.port_types.specs.Sets.{IsSubset};
ghost use Rattle.port_types.specs.declared.sets.Set24.{Set24};
ghost use Rattle.minimal_sets.specs.Families.{IsSameFamily, LiesBelow, IsMinimalMember, IsMaximalOutside};

use crate::test::Test;
use port_types::{NoMemory, Set24, StepLedger, Steps, sets_by_members};

/// A minimal member within a member: each place is left out where what is left still belongs.
pub(crate) fn shrink<L: StepLedger, T: Test<L>>(
    set: Set24,
    n: u8,
    test: &mut T,
    steps: &mut Steps<L>,
) -> Result<Set24, NoMemory>
    requires most { n ≤ most_parts }
    requires below { LiesBelow n set }
    requires belongs { T.family test.old set }
    ensures minimal { IfOk result (IsMinimalMember n (T.family test.old)) }
    ensures subset { IfOk result (λ found. IsSubset found set) }
    ensures same { IsSameFamily (T.family test.new) (T.family test.old) }
    ensures steps { steps.new ≤ steps.old + n }
{
    sets_by_members();
    let mut member = set;
    for place in 0..n {
        if member.has(place) {
            let smaller = member.without(place);
            if test.holds(smaller, steps)? {
                member = smaller;
            }
        }
    }
    Ok(member)
}

/// A maximal set outside around a set outside: each place is added where the set stays outside.
pub(crate) fn grow<L: StepLedger, T: Test<L>>(
    set: Set24,
    n: u8,
    test: &mut T,
    steps: &mut Steps<L>,
) -> Result<Set24, NoMemory>
    requires most { n ≤ most_parts }
    requires below { LiesBelow n set }
    requires outside { T.family test.old set → ⊥ }
    ensures maximal { IfOk result (IsMaximalOutside n (T.family test.old)) }
    ensures superset { IfOk result (λ found. IsSubset set found) }
    ensures same { IsSameFamily (T.family test.new) (T.family test.old) }
    ensures steps { steps.new ≤ steps.old + n }
{
    sets_by_members();
    let mut outside = set;
    for place in 0..n {
        if !outside.has(place) {
            let larger = outside.with(place);
            if !test.holds(larger, steps)? {
                outside = larger;
            }
        }
    }
    Ok(outside)
}
