//! Puts sets into shortlex order. Main function: `in_order`. Touches the sets that it is given.

ghost use Rattle.std.specs.Prelude.{◌≡◌, ◌≢◌, ◌≤◌, ◌<◌, ◌^◌, AllPairs};
ghost use Rattle.std.specs.List.Sorted.{IsPermutation};
ghost use Rattle.minimal_sets.specs.Orders.{AreInShortlexOrder};
ghost use Rattle.minimal_sets.specs.Searches.{rank_from};

use port_types::{Set24, Sets, sets_by_members};

/// A number by which sets stand in shortlex order: the number of members, then for each place, in order, a bit that is
/// 1 where it is no member.
fn rank(set: Set24) -> u32
    ensures { result ≡ rank_from set 24 }
{
    let mut rank = u32::from(set.len());
    for place in 0..24 {
        rank = rank * 2 + u32::from(!set.has(place));
    }
    rank
}

/// The same sets in shortlex order.
pub(crate) fn in_order(sets: Sets) -> Sets
    requires { AllPairs (λ s t. s ≢ t) sets }
    ensures same { IsPermutation sets result }
    ensures order { AreInShortlexOrder result }
{
    sets_by_members();
    let mut items = sets.into_vec();
    items.sort_unstable_by_key(|set| rank(*set));
    Sets::from_vec(items)
}
