//! The minimal ones of some sets of leaves. Main function: `minimal_of`. Allocates its answer, and touches the sets
//! that it is given.

ghost use Rattle.std.specs.Prelude.{◌≡◌, [], ◌-◌, ◌<◌, ◌↔◌, IsTrue, IfOk, All, Contains, length, slice_index_or};
ghost use Rattle.std.specs.List.Sorted.{IsPermutation};
ghost use Rattle.std.specs.declared.cmp.Ordering.TheVariants.{Less};
ghost use Rattle.minimal_sets.specs.Orders.{shortlex};
ghost use Rattle.fault_tree.specs.Keeping.{sublist_test, IsSortedUp, IsShortFirst, HasSmallerSubset};
ghost use Rattle.fault_tree.specs.Leaves.{IsRising, AreMinimalOf};

use crate::nodes::{LeafSet, LeafSets};
use port_types::NoMemory;
use std::alloc::Global;
use std::cmp::Ordering;

/// Whether each number of a rising list is one of another.
fn is_sublist(inner: &[u32], outer: &[u32]) -> bool
    ensures { result ≡ sublist_test inner.now outer.now }
{
    let mut i = 0;
    let mut j = 0;
    while i < inner.len() {
        if j == outer.len() || inner[i] < outer[j] {
            return false;
        }
        if inner[i] == outer[j] {
            i += 1;
        }
        j += 1;
    }
    true
}

/// The shortlex order of two sets.
fn compare(a: &LeafSet, b: &LeafSet) -> Ordering
    ensures { result ≡ shortlex a.now b.now }
{
    a.len().cmp(&b.len()).then(a.as_slice().cmp(b.as_slice()))
}

/// The same sets in shortlex order.
fn sorted(sets: LeafSets) -> LeafSets
    ensures same { IsPermutation sets result }
    ensures order { IsSortedUp result }
{
    let mut items = sets.into_vec();
    items.sort_unstable_by(|a, b| compare(a, b));
    LeafSets::from_vec(items)
}

/// Whether some kept set is smaller than this one and a subset. The kept sets stand in shortlex order.
fn has_smaller_subset(kept: &[LeafSet], set: &LeafSet) -> bool
    requires { IsShortFirst kept.now }
    ensures { IsTrue result ↔ HasSmallerSubset kept.now set.now }
{
    for other in kept {
        if other.len() >= set.len() {
            return false;
        }
        if is_sublist(other.as_slice(), set.as_slice()) {
            return true;
        }
    }
    false
}

/// Whether a set stands after the last kept one in shortlex order.
fn stands_after(kept: &[LeafSet], set: &LeafSet) -> bool
    ensures { IsTrue result
        ↔ (0 < length kept.now → shortlex (slice_index_or kept.now (length kept.now - 1) []) set.now ≡ Less) }
{
    if kept.is_empty() {
        return true;
    }
    compare(&kept[kept.len() - 1], set).is_lt()
}

/// A copy of a set.
fn copy_of(alloc: Global, set: &LeafSet) -> Result<LeafSet, NoMemory>
    ensures { IfOk result (λ copy. copy ≡ set.now) }
{
    let mut copy = LeafSet::new(alloc);
    copy.append(set.as_slice())?;
    Ok(copy)
}

/// The minimal ones of sets that stand in shortlex order.
fn keep_minimal(alloc: Global, sets: &[LeafSet]) -> Result<LeafSets, NoMemory>
    requires order { IsSortedUp sets.now }
    requires rising { All IsRising sets.now }
    ensures { IfOk result (AreMinimalOf (Contains sets.now)) }
{
    let mut kept = LeafSets::new(alloc);
    for set in sets {
        if stands_after(kept.as_slice(), set) && !has_smaller_subset(kept.as_slice(), set) {
            kept.push(copy_of(alloc, set)?)?;
        }
    }
    Ok(kept)
}

/// The minimal ones of some sets, each once, in shortlex order.
pub(crate) fn minimal_of(alloc: Global, sets: LeafSets) -> Result<LeafSets, NoMemory>
    requires { All IsRising sets }
    ensures { IfOk result (AreMinimalOf (Contains sets)) }
{
    let ordered = sorted(sets);
    keep_minimal(alloc, ordered.as_slice())
}
