//! Unions of sets of leaves. Main function: `unions_of_cut`. Allocates its answer, and touches nothing else.

ghost use Rattle.std.specs.Prelude.{◌≡◌, ◌+◌, ◌<◌, ◌^◌, ◌++◌, ◌∷◌, [], IfOk, OnOk, All, drop, map, length};
ghost use Rattle.std.specs.List.{flat_map};
ghost use Rattle.fault_tree.specs.Forming.{merged, times, cut_unions, table_sets};

use crate::nodes::{Cut, LeafSet, LeafSets, Tables};
use port_types::NoMemory;
use std::alloc::Global;

/// The union of two sets.
fn union(alloc: Global, xs: &[u32], ys: &[u32]) -> Result<LeafSet, NoMemory>
    ensures { IfOk result (λ s. s ≡ merged xs.now ys.now) }
{
    let mut union = LeafSet::new(alloc);
    let mut i = 0;
    let mut j = 0;
    while i < xs.len() && j < ys.len() {
        if xs[i] < ys[j] {
            union.push(xs[i])?;
            i += 1;
        } else if xs[i] == ys[j] {
            union.push(xs[i])?;
            i += 1;
            j += 1;
        } else {
            union.push(ys[j])?;
            j += 1;
        }
    }
    union.append(&xs[i..])?;
    union.append(&ys[j..])?;
    Ok(union)
}

/// Adds the unions of one set with each of the others.
fn add_unions(
    alloc: Global,
    set: &LeafSet,
    others: &[LeafSet],
    unions: &mut LeafSets,
) -> Result<(), NoMemory>
    ensures { OnOk result (unions.new ≡ unions.old ++ map (merged set.now) others.now) }
{
    for other in others {
        unions.push(union(alloc, set.as_slice(), other.as_slice())?)?;
    }
    Ok(())
}

/// The unions of each set of one list with each of the other.
fn each_with_each(alloc: Global, sets: &[LeafSet], others: &[LeafSet]) -> Result<LeafSets, NoMemory>
    ensures { IfOk result (λ unions. unions ≡ times sets.now others.now) }
{
    let mut unions = LeafSets::new(alloc);
    for set in sets {
        add_unions(alloc, set, others, &mut unions)?;
    }
    Ok(unions)
}

/// The one union of a cut without members.
fn empty_union(alloc: Global) -> Result<LeafSets, NoMemory>
    ensures { IfOk result (λ unions. unions ≡ [] ∷ []) }
{
    let mut unions = LeafSets::new(alloc);
    unions.push(LeafSet::new(alloc))?;
    Ok(unions)
}

/// The unions of one set of every member of a cut.
pub(crate) fn unions_of_cut(
    alloc: Global,
    table: &[LeafSets],
    cut: &[u32],
) -> Result<LeafSets, NoMemory>
    requires { All (λ member. member < length table.now) cut.now }
    ensures { IfOk result (λ unions. unions ≡ cut_unions (table_sets table.now) cut.now) }
{
    let mut unions = empty_union(alloc)?;
    let mut i = cut.len();
    while i > 0 {
        i -= 1;
        let sets = &table[cut[i] as usize];
        unions = each_with_each(alloc, sets.as_slice(), unions.as_slice())?;
    }
    Ok(unions)
}
