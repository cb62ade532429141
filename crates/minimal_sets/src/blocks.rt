//! Blocks of sets with consecutive numbers that one known set settles. They touch nothing.

ghost use Rattle.std.specs.Prelude.{◌≡◌, ℕ, ◌+◌, ◌*◌, ◌/◌, ◌^◌, ◌<◌, ◌≤◌, All, Contains, MatchOption};
ghost use Rattle.port_types.specs.Limits.{most_parts};
ghost use Rattle.port_types.specs.Sets.{has_place, IsSubset};
ghost use Rattle.port_types.specs.declared.sets.Set24.{Set24};
ghost use Rattle.minimal_sets.specs.Searches.{AreSettled, IsUnsettled};

use port_types::Set24;

/// How many places from 0 on are members, or are none.
fn front(set: Set24, member: bool) -> u8
    ensures most { result ≤ most_parts }
    ensures same { (p : ℕ) → p < result → has_place set p ≡ member }
{
    for place in 0..24 {
        if set.has(place) != member {
            return place;
        }
    }
    24
}

/// The number after those that differ from this one in the places below `free` alone.
fn block_end(bits: u32, free: u8) -> u32
    requires bits { bits < 2 ^ 24 }
    requires free { free ≤ most_parts }
    ensures { result ≡ (bits / 2 ^ free + 1) * 2 ^ free }
{
    ((bits >> free) + 1) << free
}

/// A number over this set's, such that all sets between include this subset.
pub(crate) fn past_supersets(set: Set24, subset: Set24) -> u32
    requires { IsSubset subset set }
    ensures later { set.bits < result }
    ensures within { (s : Set24) → set.bits ≤ s.bits → s.bits < result → IsSubset subset s }
{
    block_end(set.bits, front(subset, false))
}

/// A number over this set's, such that all sets between lie within this superset.
pub(crate) fn past_subsets(set: Set24, superset: Set24) -> u32
    requires { IsSubset set superset }
    ensures later { set.bits < result }
    ensures within { (s : Set24) → set.bits ≤ s.bits → s.bits < result → IsSubset s superset }
{
    block_end(set.bits, front(superset, true))
}

/// The first set that is a subset.
pub(crate) fn subset_in(sets: &[Set24], set: Set24) -> Option<Set24>
    ensures { MatchOption result (All (λ m. IsSubset m set → ⊥) sets.now) (λ m. Contains sets.now m × IsSubset m set) }
{
    for other in sets {
        if other.is_subset(set) {
            return Some(*other);
        }
    }
    None
}

/// The first set that is a superset.
fn superset_in(sets: &[Set24], set: Set24) -> Option<Set24>
    ensures { MatchOption result (All (λ m. IsSubset set m → ⊥) sets.now) (λ m. Contains sets.now m × IsSubset set m) }
{
    for other in sets {
        if set.is_subset(*other) {
            return Some(*other);
        }
    }
    None
}

/// A number over this set's, such that all sets between are settled by what is known; None where this set is not.
pub(crate) fn past_settled(set: Set24, members: &[Set24], outside: &[Set24]) -> Option<u32>
    ensures { MatchOption result (IsUnsettled members.now outside.now set)
        (λ past. (set.bits < past) × AreSettled members.now outside.now set.bits past) }
{
    match subset_in(members, set) {
        Some(member) => Some(past_supersets(set, member)),
        None => match superset_in(outside, set) {
            Some(other) => Some(past_subsets(set, other)),
            None => None,
        },
    }
}
