//! The search for all minimal members: a cursor rises over the numbers of the sets, past blocks that are settled, and
//! each set that is not settled gives a new minimal member or a new maximal set outside. Main function: `minimal`.
//! Allocates its answer, and touches the test and the counter of steps that it is lent.

ghost use Rattle.std.specs.Prelude.{◌≡◌, ℕ, ◌+◌, ◌*◌, ◌^◌, ◌<◌, ◌≤◌, ◌↔◌, IfOk, length};
ghost use Rattle.port_types.specs.Limits.{most_parts};
ghost use Rattle.port_types.specs.declared.sets.Set24.{Set24};
ghost use Rattle.minimal_sets.specs.Families.{IsSameFamily, LiesBelow, IsMinimalMember, ListsExactly, TakesFewSteps};
ghost use Rattle.minimal_sets.specs.Orders.{AreInShortlexOrder};
ghost use Rattle.minimal_sets.specs.Searches.{IsUnsettled, IsSearch, Grows};

use crate::blocks::{past_settled, past_subsets, past_supersets};
use crate::narrowing::{grow, shrink};
use crate::orders::in_order;
use crate::test::Test;
use port_types::{NoMemory, Set24, Sets, StepLedger, Steps, sets_by_members};
use std::alloc::Global;

/// Adds a minimal member within this one, and says up to which number the sets are settled now.
fn add_member<L: StepLedger, T: Test<L>>(
    set: Set24,
    n: u8,
    test: &mut T,
    steps: &mut Steps<L>,
    members: &mut Sets,
    outside: &Sets,
) -> Result<u32, NoMemory>
    requires most { n ≤ most_parts }
    requires below { LiesBelow n set }
    requires belongs { T.family test.old set }
    requires unsettled { IsUnsettled members.old outside.now set }
    requires search { IsSearch n (T.family test.old) set.bits members.old outside.now }
    ensures search { IfOk result (λ next. IsSearch n (T.family test.old) next members.new outside.now) }
    ensures later { IfOk result (λ next. set.bits < next) }
    ensures more { IfOk result (λ _. length members.new ≡ length members.old + 1) }
    ensures same { IsSameFamily (T.family test.new) (T.family test.old) }
    ensures steps { steps.new ≤ steps.old + n }
{
    let found = shrink(set, n, test, steps)?;
    members.push(found)?;
    Ok(past_supersets(set, found))
}

/// Adds a maximal set outside around this one, and says up to which number the sets are settled now.
fn add_outside<L: StepLedger, T: Test<L>>(
    set: Set24,
    n: u8,
    test: &mut T,
    steps: &mut Steps<L>,
    members: &Sets,
    outside: &mut Sets,
) -> Result<u32, NoMemory>
    requires most { n ≤ most_parts }
    requires below { LiesBelow n set }
    requires lacks { T.family test.old set → ⊥ }
    requires unsettled { IsUnsettled members.now outside.old set }
    requires search { IsSearch n (T.family test.old) set.bits members.now outside.old }
    ensures search { IfOk result (λ next. IsSearch n (T.family test.old) next members.now outside.new) }
    ensures later { IfOk result (λ next. set.bits < next) }
    ensures more { IfOk result (λ _. length outside.new ≡ length outside.old + 1) }
    ensures same { IsSameFamily (T.family test.new) (T.family test.old) }
    ensures steps { steps.new ≤ steps.old + n }
{
    let found = grow(set, n, test, steps)?;
    outside.push(found)?;
    Ok(past_subsets(set, found))
}

/// Settles a set that is not settled, and says up to which number the sets are settled now.
fn settle<L: StepLedger, T: Test<L>>(
    set: Set24,
    n: u8,
    test: &mut T,
    steps: &mut Steps<L>,
    members: &mut Sets,
    outside: &mut Sets,
) -> Result<u32, NoMemory>
    requires most { n ≤ most_parts }
    requires below { LiesBelow n set }
    requires unsettled { IsUnsettled members.old outside.old set }
    requires search { IsSearch n (T.family test.old) set.bits members.old outside.old }
    ensures search { IfOk result (λ next. IsSearch n (T.family test.old) next members.new outside.new) }
    ensures later { IfOk result (λ next. set.bits < next) }
    ensures more { IfOk result (λ _. length members.new + length outside.new ≡ length members.old
        + length outside.old + 1) }
    ensures same { IsSameFamily (T.family test.new) (T.family test.old) }
    ensures steps { steps.new ≤ steps.old + (n + 1) }
{
    if test.holds(set, steps)? {
        add_member(set, n, test, steps, members, outside)
    } else {
        add_outside(set, n, test, steps, members, outside)
    }
}

/// One step of the cursor: past the block of a settled set, or past a set that is settled by tests.
fn advance<L: StepLedger, T: Test<L>>(
    set: Set24,
    n: u8,
    test: &mut T,
    steps: &mut Steps<L>,
    members: &mut Sets,
    outside: &mut Sets,
) -> Result<u32, NoMemory>
    requires most { n ≤ most_parts }
    requires below { LiesBelow n set }
    requires search { IsSearch n (T.family test.old) set.bits members.old outside.old }
    ensures search { IfOk result (λ next. IsSearch n (T.family test.old) next members.new outside.new) }
    ensures later { IfOk result (λ next. set.bits < next) }
    ensures same { IsSameFamily (T.family test.new) (T.family test.old) }
    ensures steps { IfOk result (λ _. Grows n steps.old steps.new (length members.old + length outside.old)
        (length members.new + length outside.new)) }
{
    match past_settled(set, members.as_slice(), outside.as_slice()) {
        Some(past) => Ok(past),
        None => settle(set, n, test, steps, members, outside),
    }
}

/// The minimal members, among the sets of numbers below `n`, of the family that a test decides, each once, and smaller
/// sets first.
///
/// The test is called at most `n + 1` times for each minimal member and for each maximal set outside; each call is one
/// step. Between the calls the search reads what it has found so far, once for each block of sets that a found one
/// settles. The only error is want of memory, the test's own included; after it nothing is known of the steps. The search
/// is that of D. Gunopulos and others, Discovering all most specific sentences (2003), with a cursor that finds the next
/// set.
pub fn minimal<L: StepLedger, T: Test<L>>(
    alloc: Global,
    n: u8,
    test: &mut T,
    steps: &mut Steps<L>,
) -> Result<Sets, NoMemory>
    requires { n ≤ most_parts }
    ensures exactly { IfOk result (ListsExactly (IsMinimalMember n (T.family test.old))) }
    ensures order { IfOk result AreInShortlexOrder }
    ensures steps { IfOk result (TakesFewSteps n (T.family test.old) steps.old steps.new) }
    ensures same { IsSameFamily (T.family test.new) (T.family test.old) }
{
    sets_by_members();
    let mut members = Sets::new(alloc);
    let mut outside = Sets::new(alloc);
    let all = Set24::below(n);
    let mut next = 0;
    while next <= all.bits {
        let set = Set24 { bits: next };
        next = advance(set, n, test, steps, &mut members, &mut outside)?;
    }
    Ok(in_order(members))
}
