//! The nodes that the top depends on. Main function: `reached`. Allocates its answer, and touches nothing else.

ghost use Rattle.std.specs.Prelude.{◌<◌, IfOk, All, Contains, length};
ghost use Rattle.fault_tree.specs.Trees.{MembersStandFirst};
ghost use Rattle.fault_tree.specs.Marks.{cuts_of, IsNamedIn, Marks, AreReached};

use crate::nodes::{Cut, Nodes, TreeNode};
use port_types::NoMemory;
use std::alloc::Global;

/// Marks the members of a cut.
fn mark_cut(cut: &[u32], marks: &mut [bool])
    requires { All (λ member. member < length marks.old) cut.now }
    ensures { Marks marks.old marks.new (Contains cut.now) }
{
    for member in cut {
        marks[*member as usize] = true;
    }
}

/// Marks the members of some cuts.
fn mark_cuts(cuts: &[Cut], marks: &mut [bool])
    requires { All (All (λ member. member < length marks.old)) cuts.now }
    ensures { Marks marks.old marks.new (IsNamedIn cuts.now) }
{
    for cut in cuts {
        mark_cut(cut.as_slice(), marks);
    }
}

/// Marks the members of a node.
fn mark_members(node: &TreeNode, marks: &mut [bool])
    requires { All (All (λ member. member < length marks.old)) (cuts_of node.now) }
    ensures { Marks marks.old marks.new (IsNamedIn (cuts_of node.now)) }
{
    match node {
        TreeNode::Leaf => {}
        TreeNode::Cuts(cuts) => mark_cuts(cuts.as_slice(), marks),
    }
}

/// Marks of the nodes that the top depends on.
pub(crate) fn reached(alloc: Global, nodes: &Nodes, top: u32) -> Result<Vec<bool>, NoMemory>
    requires order { MembersStandFirst nodes.now }
    requires within { top < length nodes.now }
    ensures { IfOk result (λ marks. AreReached nodes.now top marks.items) }
{
    let mut marks = vec![in alloc; false; nodes.len()]?;
    marks[top as usize] = true;
    let mut node = top as usize + 1;
    while node > 0 {
        node -= 1;
        if marks[node] {
            mark_members(&nodes.as_slice()[node], &mut marks);
        }
    }
    Ok(marks)
}
