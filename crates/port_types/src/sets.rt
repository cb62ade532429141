//! Sets of numbers below 24. Only `places` takes memory.

ghost use Rattle.std.specs.Prelude.{◌≡◌, ◌<◌, ◌≤◌, ◌⊎◌, ◌↔◌, ℕ, IsTrue, IfOk, length};
ghost use Rattle.port_types.specs.Limits.{most_parts};

use crate::memory::NoMemory;
use std::alloc::Global;

/// A set of numbers below 24: bit `i` is set exactly where `i` is a member.
#[derive(Clone, Copy, Debug, PartialEq, Eq)]
pub struct Set24 {
    pub bits: u32,
    ghost in_range: { bits < 16777216 },
}

impl Set24 {
    ghost use Rattle.port_types.specs.Sets.{HasPlace, IsSubset, places};

    /// The set without members.
    pub fn empty() -> Set24
        ensures { (p : ℕ) → HasPlace result p → ⊥ }
    {
        Set24 { bits: 0 }
    }

    /// The set of all numbers below `n`.
    pub fn below(n: u8) -> Set24
        requires { n ≤ most_parts }
        ensures { (p : ℕ) → HasPlace result p ↔ (p < n) }
    {
        Set24 { bits: (1 << n) - 1 }
    }

    /// Whether a number is a member.
    pub fn has(self, place: u8) -> bool
        requires { place < most_parts }
        ensures { IsTrue result ↔ HasPlace self place }
    {
        self.bits >> place & 1 == 1
    }

    /// The set with this number too.
    pub fn with(self, place: u8) -> Set24
        requires { place < most_parts }
        ensures { (p : ℕ) → HasPlace result p ↔ ((p ≡ place) ⊎ HasPlace self p) }
    {
        Set24 {
            bits: self.bits | 1 << place,
        }
    }

    /// The set without this number.
    pub fn without(self, place: u8) -> Set24
        requires { place < most_parts }
        ensures { (p : ℕ) → HasPlace result p ↔ ((p ≡ place → ⊥) × HasPlace self p) }
    {
        Set24 {
            bits: self.bits & !(1 << place),
        }
    }

    /// The set of all members of the two sets.
    pub fn union(self, other: Set24) -> Set24
        ensures { (p : ℕ) → HasPlace result p ↔ (HasPlace self p ⊎ HasPlace other p) }
    {
        Set24 {
            bits: self.bits | other.bits,
        }
    }

    /// Whether each member is one of the other set.
    pub fn is_subset(self, other: Set24) -> bool
        ensures { IsTrue result ↔ IsSubset self other }
    {
        self.bits & other.bits == self.bits
    }

    /// The number of members.
    pub fn len(self) -> u8
        ensures { result ≡ length (places self) }
    {
        let mut count = 0;
        for place in 0..24 {
            if self.has(place) {
                count += 1;
            }
        }
        count
    }

    /// The members, rising.
    pub fn places(self, alloc: Global) -> Result<Vec<u8>, NoMemory>
        ensures { IfOk result (λ list. list.items ≡ places self) }
    {
        let mut list = Vec::new(alloc);
        for place in 0..24 {
            if self.has(place) {
                list.push(place)?;
            }
        }
        Ok(list)
    }
}
