//! Minimal members of families that a list of sets gives, worked out by hand, and the count of steps.

ghost use Rattle.std.specs.Prelude.{◌≡◌, ◌↔◌, IsTrue, All, Contains, MatchOption};
ghost use Rattle.port_types.specs.Sets.{IsSubset};
ghost use Rattle.minimal_sets.specs.Searches.{HasSubsetIn};

use minimal_sets::{Test, minimal};
use port_types::{NoMemory, Set24, Sets, StepLedger, Steps};
use std::alloc::Global;
use std::test::Fail;

/// The listed sets and their supersets.
#[derive(Drop)]
struct Supersets {
    listed: Sets,
}

/// The first set that is a subset.
fn subset_in(sets: &[Set24], set: Set24) -> Option<Set24>
    ensures { MatchOption result (All (λ m. IsSubset m set → ⊥) sets.now) (λ m. Contains sets.now m × IsSubset m set) }
{
    for other in sets {
        if other.is_subset(set) {
            return Some(*other);
        }
    }
    None
}

/// Whether some listed set is a subset.
fn includes_one(listed: &[Set24], set: Set24) -> bool
    ensures { IsTrue result ↔ HasSubsetIn listed.now set }
{
    match subset_in(listed, set) {
        Some(_) => true,
        None => false,
    }
}

impl<L: StepLedger> Test<L> for Supersets {
    ghost use Rattle.minimal_sets.specs.Searches.{HasSubsetIn, superset_has};

    ghost family = { λ test set. HasSubsetIn test.listed set };

    ghost upward = { λ test s t within has. superset_has test.listed s t within has };

    fn holds(&mut self, set: Set24, steps: &mut Steps<L>) -> Result<bool, NoMemory> {
        steps.tick();
        Ok(includes_one(self.listed.as_slice(), set))
    }
}

/// The numbers of the minimal members of a family, the listed sets and their supersets, and how many steps they took.
fn found(alloc: Global, n: u8, listed: &[u32]) -> Result<(Vec<u32>, u64), NoMemory> {
    let mut sets = Sets::new(alloc);
    for bits in listed {
        if *bits < 16777216 && n <= 24 {
            sets.push(Set24 { bits: *bits })?;
        }
    }
    let mut test = Supersets { listed: sets };
    let mut steps = Steps::start();
    let mut numbers = Vec::new(alloc);
    if n <= 24 {
        let members = minimal(alloc, n, &mut test, &mut steps)?;
        for set in members.as_slice() {
            numbers.push(set.bits)?;
        }
    }
    Ok((numbers, steps.count()))
}

#[test]
fn minimal_members_of_listed_families(rt: HostRuntime) -> Result<(), Fail> {
    // {0}, {1, 2}, {0, 3}: the third includes the first.
    assert!(rt; found(rt.alloc(), 4, &[1, 6, 9])?.0.as_slice() == [1, 6].as_slice());
    // {2, 3}, {0, 3}, {1}, {0, 2}: smaller ones first, then as in a dictionary.
    assert!(rt; found(rt.alloc(), 4, &[12, 9, 2, 5])?.0.as_slice() == [2, 5, 9, 12].as_slice());
    // The empty set and another.
    assert!(rt; found(rt.alloc(), 4, &[3, 0])?.0.as_slice() == [0].as_slice());
    // {3} is none of the sets of numbers below 3.
    assert_eq!(rt; found(rt.alloc(), 3, &[8])?.0.len(), 0);
    // No set at all: the full set is the one maximal set outside.
    let (none, steps) = found(rt.alloc(), 24, &[])?;
    assert_eq!(rt; none.len(), 0);
    assert!(rt; steps <= 25);
    Ok(())
}
