//! The expansion of a fault tree, node by node in rising order. Main function: `expand`. Allocates its answer, and
//! touches nothing else.

ghost use Rattle.std.specs.Prelude.{◌≡◌, ◌++◌, ◌∷◌, [], ◌<◌, ◌≤◌, ◌^◌, IfOk, All, MatchOption, length};
ghost use Rattle.std.specs.Option.{IfSome};
ghost use Rattle.fault_tree.specs.Expansions.{IsExpansion};
ghost use Rattle.fault_tree.specs.Forming.{all_unions, table_sets};
ghost use Rattle.fault_tree.specs.Leaves.{AreMinimalOf};
ghost use Rattle.fault_tree.specs.Tables.{AllRising, IsSetsFor, IsStopped};
ghost use Rattle.fault_tree.specs.Trees.{MembersStandFirst, IsFormed, most_unions, width};

use crate::minimal::minimal_of;
use crate::nodes::{Cut, Expansion, LeafSet, LeafSets, Nodes, Tables, TreeNode};
use crate::reaching::reached;
use crate::unions::unions_of_cut;
use crate::widths::{MOST_UNIONS, cut_width, width_of};
use port_types::NoMemory;
use std::alloc::Global;

/// The sets of one list and of another.
fn joined(sets: LeafSets, more: LeafSets) -> Result<LeafSets, NoMemory>
    ensures { IfOk result (λ all. all ≡ sets ++ more) }
{
    let mut items = sets.into_vec();
    let mut others = more.into_vec();
    items.append(&mut others)?;
    Ok(LeafSets::from_vec(items))
}

/// The unions of some cuts. A cut that forms none is passed over, since its members may form too many.
fn unions_of(alloc: Global, table: &[LeafSets], cuts: &[Cut]) -> Result<LeafSets, NoMemory>
    requires { All (All (λ member. member < length table.now)) cuts.now }
    ensures { IfOk result (λ unions. unions ≡ all_unions (table_sets table.now) cuts.now) }
{
    let mut unions = LeafSets::new(alloc);
    for cut in cuts {
        if cut_width(table, cut.as_slice()) > 0 {
            let more = unions_of_cut(alloc, table, cut.as_slice())?;
            unions = joined(unions, more)?;
        }
    }
    Ok(unions)
}

/// The sets of a refined node, or None where it forms too many unions.
fn refine(alloc: Global, table: &[LeafSets], cuts: &[Cut]) -> Result<Option<LeafSets>, NoMemory>
    requires members { All (All (λ member. member < length table.now)) cuts.now }
    requires rising { AllRising (table_sets table.now) }
    ensures wide { IfOk result (λ sets. MatchOption sets (most_unions < width (table_sets table.now) cuts.now)
        (λ _. width (table_sets table.now) cuts.now ≤ most_unions)) }
    ensures minimal { IfOk result (λ sets. IfSome sets (AreMinimalOf (IsFormed (table_sets table.now) cuts.now))) }
{
    if width_of(table, cuts) > MOST_UNIONS {
        return Ok(None);
    }
    let unions = unions_of(alloc, table, cuts)?;
    Ok(Some(minimal_of(alloc, unions)?))
}

/// The one set of a leaf.
fn leaf_sets(alloc: Global, leaf: u32) -> Result<LeafSets, NoMemory>
    ensures { IfOk result (λ sets. sets ≡ (leaf ∷ []) ∷ []) }
{
    let mut set = LeafSet::new(alloc);
    set.push(leaf)?;
    let mut sets = LeafSets::new(alloc);
    sets.push(set)?;
    Ok(sets)
}

/// The sets of a node by those of the nodes before it, or None where it is too wide. A node that is not reached gets
/// none.
fn node_sets(
    alloc: Global,
    nodes: &Nodes,
    table: &[LeafSets],
    node: u32,
    reached: bool,
) -> Result<Option<LeafSets>, NoMemory>
    requires order { MembersStandFirst nodes.now }
    requires within { node < length nodes.now }
    requires table { length table.now ≡ node }
    requires rising { AllRising (table_sets table.now) }
    ensures { IfOk result (λ sets. MatchOption sets (IsStopped nodes.now (table_sets table.now) node reached)
        (IsSetsFor nodes.now (table_sets table.now) node reached)) }
{
    if !reached {
        return Ok(Some(LeafSets::new(alloc)));
    }
    match &nodes.as_slice()[node as usize] {
        TreeNode::Leaf => Ok(Some(leaf_sets(alloc, node)?)),
        TreeNode::Cuts(cuts) => refine(alloc, table, cuts.as_slice()),
    }
}

/// The expansion of a fault tree from its top.
///
/// A leaf has one set, which holds it alone. A refined node has the minimal ones of its unions, which are formed for
/// each cut by one set of every member; a cut without members forms the empty one. Numbers in a set rise, and the sets
/// stand with fewer members first, then as in a dictionary. The answer is Wide exactly where the top, or a node that it
/// depends on through members of cuts, forms more than 65,536 unions; it names the least such node. The only error is
/// want of memory.
pub fn expand(alloc: Global, nodes: &Nodes, top: u32) -> Result<Expansion, NoMemory>
    requires order { MembersStandFirst nodes.now }
    requires few { length nodes.now < 2 ^ 32 }
    requires within { top < length nodes.now }
    ensures { IfOk result (IsExpansion nodes.now top) }
{
    let marks = reached(alloc, nodes, top)?;
    let mut table = Tables::new(alloc);
    for node in 0..top {
        match node_sets(alloc, nodes, table.as_slice(), node, marks[node as usize])? {
            Some(sets) => table.push(sets)?,
            None => return Ok(Expansion::Wide { node }),
        }
    }
    match node_sets(alloc, nodes, table.as_slice(), top, true)? {
        Some(sets) => Ok(Expansion::Sets(sets)),
        None => Ok(Expansion::Wide { node: top }),
    }
}
