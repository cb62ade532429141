//! Expansions of small trees, worked out by hand, and of trees at and over the limit on unions.

ghost use Rattle.std.specs.Prelude.{◌<◌, IsTrue, All};
ghost use Rattle.fault_tree.specs.Marks.{cuts_of};
ghost use Rattle.fault_tree.specs.Trees.{MembersStandFirst};

use fault_tree::{Cut, Expansion, NodeCuts, Nodes, TreeNode, expand};
use port_types::NoMemory;
use std::alloc::Global;
use std::test::Fail;

/// The cuts of a node, each by its members.
type Refined = &'static [&'static [u32]];

/// Leaves and then refined nodes, the last of which is the top, and the sets of the top.
const SMALL_TREES: [(u32, &[Refined], Refined); 7] = [
    // either of two leaves
    (2, &[&[&[0], &[1]]], &[&[0], &[1]]),
    // a cut without members forms the empty set, which every other set includes
    (1, &[&[&[0], &[]]], &[&[]]),
    // no cut, so no sets
    (1, &[&[]], &[]),
    // a member without sets
    (1, &[&[], &[&[0, 1]]], &[]),
    // {0, 2} includes {2}, and stands after {0, 1}
    (3, &[&[&[0, 1], &[2], &[0, 2]]], &[&[2], &[0, 1]]),
    // one leaf of each pair
    (
        4,
        &[&[&[0], &[1]], &[&[2], &[3]], &[&[4, 5]]],
        &[&[0, 2], &[0, 3], &[1, 2], &[1, 3]],
    ),
    // a leaf that both members share: {0}, {0, 2}, {0, 1} and {1, 2} are formed
    (
        3,
        &[&[&[0], &[1]], &[&[0], &[2]], &[&[3, 4]]],
        &[&[0], &[1, 2]],
    ),
];

/// A list of leaves.
fn leaves(alloc: Global, count: u32) -> Result<Nodes, NoMemory> {
    let mut nodes = Nodes::new(alloc);
    for _ in 0..count {
        nodes.push(TreeNode::Leaf)?;
    }
    Ok(nodes)
}

/// A node with these cuts.
fn refined(alloc: Global, cuts: &[&[u32]]) -> Result<TreeNode, NoMemory> {
    let mut list = NodeCuts::new(alloc);
    for members in cuts {
        let mut cut = Cut::new(alloc);
        cut.append(members)?;
        list.push(cut)?;
    }
    Ok(TreeNode::Cuts(list))
}

/// A pair of leaves for each of some nodes, these nodes, each of which fails with either leaf, and a node that fails
/// with all of them.
fn pairs(alloc: Global, count: u16) -> Result<Nodes, NoMemory> {
    let first = 2 * u32::from(count);
    let mut nodes = leaves(alloc, first)?;
    let mut members = Vec::new(alloc);
    for pair in 0..count {
        let leaf = 2 * u32::from(pair);
        nodes.push(refined(alloc, &[&[leaf], &[leaf + 1]])?)?;
        members.push(first + u32::from(pair))?;
    }
    nodes.push(refined(alloc, &[members.as_slice()])?)?;
    Ok(nodes)
}

/// Whether every number is below an end.
fn is_below(cut: &[u32], end: usize) -> bool
    ensures { IsTrue result → All (λ member. member < end) cut.now }
{
    for member in cut {
        if *member as usize >= end {
            return false;
        }
    }
    true
}

/// Whether every number of every cut is below an end.
fn are_below(cuts: &[Cut], end: usize) -> bool
    ensures { IsTrue result → All (All (λ member. member < end)) cuts.now }
{
    for cut in cuts {
        if !is_below(cut.as_slice(), end) {
            return false;
        }
    }
    true
}

/// Whether every member of a node is below an end.
fn members_below(node: &TreeNode, end: usize) -> bool
    ensures { IsTrue result → All (All (λ member. member < end)) (cuts_of node.now) }
{
    match node {
        TreeNode::Leaf => true,
        TreeNode::Cuts(cuts) => are_below(cuts.as_slice(), end),
    }
}

/// Whether every member stands before its node.
fn stand_first(nodes: &[TreeNode]) -> bool
    ensures { IsTrue result → MembersStandFirst nodes.now }
{
    for node in 0..nodes.len() {
        if !members_below(&nodes[node], node) {
            return false;
        }
    }
    true
}

/// The expansion of some nodes from one of them, None where a member does not stand before its node.
fn expansion(alloc: Global, nodes: &Nodes, top: u32) -> Result<Option<Expansion>, NoMemory> {
    if nodes.len() < 4294967296 && (top as usize) < nodes.len() && stand_first(nodes.as_slice()) {
        return Ok(Some(expand(alloc, nodes, top)?));
    }
    Ok(None)
}

fn has_sets(answer: &Option<Expansion>, sets: &[&[u32]]) -> bool {
    match answer {
        Some(Expansion::Sets(found)) => {
            found.len() == sets.len()
                && found
                    .as_slice()
                    .iter()
                    .zip(sets)
                    .all(|(set, numbers)| set.as_slice() == *numbers)
        }
        _ => false,
    }
}

fn is_wide(answer: &Option<Expansion>, wide: u32) -> bool {
    match answer {
        Some(Expansion::Wide { node }) => *node == wide,
        _ => false,
    }
}

/// Whether the last of some leaves and refined nodes has these sets.
fn last_has(
    alloc: Global,
    count: u32,
    tops: &[&[&[u32]]],
    sets: &[&[u32]],
) -> Result<bool, NoMemory> {
    let mut nodes = leaves(alloc, count)?;
    let mut next = count;
    let mut top = count;
    for cuts in tops {
        nodes.push(refined(alloc, cuts)?)?;
        top = next;
        next = next.saturating_add(1);
    }
    Ok(has_sets(&expansion(alloc, &nodes, top)?, sets))
}

#[test]
fn expansions_by_hand(rt: HostRuntime) -> Result<(), Fail> {
    for (count, tops, sets) in SMALL_TREES {
        assert!(rt;
            last_has(rt.alloc(), count, tops, sets)?,
            "with {count} leaves"
        );
    }
    Ok(())
}

/// The first set, the last one and how many there are.
fn ends(answer: &Option<Expansion>) -> Option<(&[u32], &[u32], usize)> {
    match answer {
        Some(Expansion::Sets(sets)) => {
            let first = sets.as_slice().first()?;
            let last = sets.as_slice().last()?;
            Some((first.as_slice(), last.as_slice(), sets.len()))
        }
        _ => None,
    }
}

#[test]
fn at_the_limit_on_unions(rt: HostRuntime) -> Result<(), Fail> {
    let nodes = pairs(rt.alloc(), 16)?;
    let answer = expansion(rt.alloc(), &nodes, 48)?;
    let first: &[u32] = &[0, 2, 4, 6, 8, 10, 12, 14, 16, 18, 20, 22, 24, 26, 28, 30];
    let last: &[u32] = &[1, 3, 5, 7, 9, 11, 13, 15, 17, 19, 21, 23, 25, 27, 29, 31];
    assert!(rt; ends(&answer) == Some((first, last, 65536)));
    Ok(())
}

#[test]
fn over_the_limit_on_unions(rt: HostRuntime) -> Result<(), Fail> {
    let mut nodes = pairs(rt.alloc(), 17)?;
    assert!(rt; is_wide(&expansion(rt.alloc(), &nodes, 51)?, 51));
    // A node above it is told by the wide one, and one beside it is not wide.
    nodes.push(refined(rt.alloc(), &[&[51]])?)?;
    nodes.push(refined(rt.alloc(), &[&[34, 35]])?)?;
    assert!(rt; is_wide(&expansion(rt.alloc(), &nodes, 52)?, 51));
    assert!(rt;
        has_sets(
            &expansion(rt.alloc(), &nodes, 53)?,
            &[&[0, 2], &[0, 3], &[1, 2], &[1, 3]]
        )
    );
    Ok(())
}
