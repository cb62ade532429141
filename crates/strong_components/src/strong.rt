//! Strongly connected components of a graph, numbered so that no edge leads to a greater number. The search keeps
//! a stack of nodes that is cut into strongly connected segments: an edge back into the stack joins the segments
//! after it, and a segment with no edge left to follow is a component (H. N. Gabow, Path-based depth-first search
//! for strong and biconnected components, 2000). It is linear in nodes and edges, and allocates its stacks.

ghost use Rattle.std.specs.Prelude.{◌≡◌, ◌<◌, ◌≤◌, ◌++◌, ℕ, IfOk, OnOk, All, MatchOption, map, length, slice_index_or};
ghost use Rattle.std.specs.Prelude.{replicate};
ghost use Rattle.strong_components.specs.Strong.{IsInside, IsRanking};
ghost use Rattle.strong_components.specs.StrongSearch.{search_of, opened, JoinsAt, closed_marks, closed_at};
ghost use Rattle.strong_components.specs.StrongSearch.{IsStrongSearch};
ghost use Rattle.strong_components.specs.StrongSearch.{edges_from, class_of, TakesEdge, GoesOn, IsLastBound};
ghost use Rattle.strong_components.specs.StrongSearch.{StaysSeen, IsSeen, IsStep, IsAtRest};

use port_types::NoMemory;
use sqlite_items::Items;
use std::alloc::Global;

/// What is known of a node: nothing yet, its place on the stack, or the number of its component.
#[derive(Clone, Copy)]
pub(crate) enum Mark {
    Unseen,
    Open(usize),
    Closed(usize),
}

/// The state of the search: the marks of the nodes, the stack of open nodes, where its segments begin, the edges
/// still to be followed, as places on the stack and nodes, and how many components are closed.
#[derive(Drop)]
pub(crate) struct Walk {
    pub marks: Vec<Mark>,
    pub stack: Vec<usize>,
    pub bounds: Vec<usize>,
    pub pending: Vec<(usize, usize)>,
    pub closed: usize,
}

/// Puts the edges of a node at a place of the stack.
fn push_edges(
    pending: &mut Vec<(usize, usize)>,
    place: usize,
    targets: &[u32],
) -> Result<(), NoMemory>
    ensures { OnOk result (pending.new.items ≡ pending.old.items ++ edges_from place targets.now) }
{
    for target in targets {
        pending.push((place, *target as usize))?;
    }
    Ok(())
}

/// Opens a node: it goes onto the stack as a segment of its own.
fn open_node(walk: &mut Walk, graph: &[Items<u32>], node: usize) -> Result<(), NoMemory>
    requires marked { node < length walk.old.marks.items }
    requires inside { node < length graph.now }
    ensures { OnOk result (search_of walk.new ≡ opened (search_of walk.old) graph.now node) }
{
    let place = walk.stack.len();
    walk.marks[node] = Mark::Open(place);
    walk.stack.push(node)?;
    walk.bounds.push(place)?;
    push_edges(&mut walk.pending, place, graph[node].as_slice())
}

/// Joins all segments that begin after a place of the stack with the one of that place.
fn join_segments(bounds: &mut Vec<usize>, place: usize)
    ensures { JoinsAt place bounds.old.items bounds.new.items }
{
    let mut kept = bounds.len();
    'scan: while kept > 0 && bounds[kept - 1] > place {
        kept -= 1;
    }
    bounds.truncate(kept);
}

/// Marks nodes as those of the component of this number.
fn close_nodes(marks: &mut Vec<Mark>, nodes: &[usize], number: usize)
    requires { All (λ (node : ℕ). node < length marks.old.items) nodes.now }
    ensures { marks.new.items ≡ closed_marks marks.old.items nodes.now number }
{
    for node in nodes {
        marks[*node] = Mark::Closed(number);
    }
}

/// Closes the last segment, which begins at this place: its nodes are a component.
fn close_segment(walk: &mut Walk, start: usize) -> Result<(), NoMemory>
    requires inside { start ≤ length walk.old.stack.items }
    requires nodes { All (λ (node : ℕ). node < length walk.old.marks.items) walk.old.stack.items }
    ensures { OnOk result (search_of walk.new ≡ closed_at (search_of walk.old) start) }
{
    close_nodes(&mut walk.marks, &walk.stack[start..], walk.closed);
    walk.stack.truncate(start);
    walk.bounds.pop();
    walk.closed = walk.closed.checked_add(1).ok_or(NoMemory)?;
    Ok(())
}

/// Takes the last edge away, if it begins at or after this place of the stack.
fn next_edge(pending: &mut Vec<(usize, usize)>, start: usize) -> Option<(usize, usize)>
    ensures { TakesEdge start pending.old.items pending.new.items result }
{
    match pending.last() {
        None => None,
        Some(edge) => { if edge.0 < start { None } else { pending.pop() } }
    }
}

/// Where the last segment begins.
fn last_bound(bounds: &[usize]) -> Option<usize>
    ensures { MatchOption result (length bounds.now ≡ 0) (IsLastBound bounds.now) }
{
    bounds.last().copied()
}

/// Follows an edge to a node.
fn follow(walk: &mut Walk, graph: &[Items<u32>], node: usize) -> Result<(), NoMemory>
    requires marked { node < length walk.old.marks.items }
    requires inside { node < length graph.now }
    ensures { OnOk result (GoesOn graph.now (search_of walk.old) node (search_of walk.new)) }
{
    match walk.marks[node] {
        Mark::Unseen => open_node(walk, graph, node),
        Mark::Open(place) => {
            join_segments(&mut walk.bounds, place);
            Ok(())
        }
        Mark::Closed(_) => Ok(()),
    }
}

/// One step of the search, where the last segment begins at `start`: follows an edge, or closes the segment.
fn step(walk: &mut Walk, graph: &[Items<u32>], start: usize) -> Result<(), NoMemory>
    requires inside { IsInside graph.now }
    requires search { IsStrongSearch graph.now (search_of walk.old) }
    requires start { IsLastBound walk.old.bounds.items start }
    ensures { OnOk result (IsStep graph.now (search_of walk.old) (search_of walk.new)) }
{
    match next_edge(&mut walk.pending, start) {
        None => close_segment(walk, start)?,
        Some((_place, node)) => follow(walk, graph, node)?,
    }
    Ok(())
}

/// Steps until no segment is left.
fn run(walk: &mut Walk, graph: &[Items<u32>]) -> Result<(), NoMemory>
    requires inside { IsInside graph.now }
    requires search { IsStrongSearch graph.now (search_of walk.old) }
    ensures rest { OnOk result (IsAtRest graph.now (search_of walk.new)) }
    ensures seen { OnOk result (StaysSeen (search_of walk.old) (search_of walk.new)) }
{
    'steps: while let Some(start) = last_bound(walk.bounds.as_slice()) {
        step(walk, graph, start)?;
    }
    Ok(())
}

/// What is known of a node.
fn mark_at(marks: &[Mark], node: usize) -> Mark
    requires { node < length marks.now }
    ensures { result ≡ slice_index_or marks.now node Mark.Unseen }
{
    marks[node]
}

/// Searches from a node that was not seen.
fn search_new(walk: &mut Walk, graph: &[Items<u32>], root: usize) -> Result<(), NoMemory>
    requires inside { IsInside graph.now }
    requires root { root < length graph.now }
    requires unseen { slice_index_or walk.old.marks.items root Mark.Unseen ≡ Mark.Unseen }
    requires rest { IsAtRest graph.now (search_of walk.old) }
    ensures rest { OnOk result (IsAtRest graph.now (search_of walk.new)) }
    ensures seen { OnOk result (StaysSeen (search_of walk.old) (search_of walk.new)) }
    ensures root { OnOk result (IsSeen (search_of walk.new) root) }
{
    open_node(walk, graph, root)?;
    run(walk, graph)?;
    Ok(())
}

/// Searches from a node, if it was not seen.
fn search_from(walk: &mut Walk, graph: &[Items<u32>], root: usize) -> Result<(), NoMemory>
    requires inside { IsInside graph.now }
    requires root { root < length graph.now }
    requires rest { IsAtRest graph.now (search_of walk.old) }
    ensures rest { OnOk result (IsAtRest graph.now (search_of walk.new)) }
    ensures seen { OnOk result (StaysSeen (search_of walk.old) (search_of walk.new)) }
    ensures root { OnOk result (IsSeen (search_of walk.new) root) }
{
    match mark_at(walk.marks.as_slice(), root) {
        Mark::Unseen => search_new(walk, graph, root)?,
        Mark::Open(_) => {}
        Mark::Closed(_) => {}
    }
    Ok(())
}

fn class(mark: Mark) -> usize
    ensures { result ≡ class_of mark }
{
    match mark {
        Mark::Unseen => 0,
        Mark::Open(_) => 0,
        Mark::Closed(number) => number,
    }
}

/// The numbers of the components of marked nodes.
fn classes(alloc: Global, marks: &[Mark]) -> Result<Vec<usize>, NoMemory>
    ensures { IfOk result (λ list. list.items ≡ map class_of marks.now) }
{
    let mut list = Vec::new(alloc);
    for mark in marks {
        list.push(class(*mark))?;
    }
    Ok(list)
}

/// The marks of so many nodes, none of which was seen.
fn unseen_marks(alloc: Global, count: usize) -> Result<Vec<Mark>, NoMemory>
    ensures { IfOk result (λ marks. marks.items ≡ replicate count Mark.Unseen) }
{
    let mut marks = Vec::new(alloc);
    for _place in 0..count {
        marks.push(Mark::Unseen)?;
    }
    Ok(marks)
}

/// Numbers of the nodes that do not rise along edges, and are the same only within a strongly connected component.
/// For each node of the graph the nodes that its edges lead to, and one number. Its only error is want of memory.
pub fn ranks_of(alloc: Global, graph: &[Items<u32>]) -> Result<Vec<usize>, NoMemory>
    requires { IsInside graph.now }
    ensures { IfOk result (λ ranks. IsRanking graph.now ranks.items) }
{
    let mut walk = Walk {
        marks: unseen_marks(alloc, graph.len())?,
        stack: Vec::new(alloc),
        bounds: Vec::new(alloc),
        pending: Vec::new(alloc),
        closed: 0,
    };
    for root in 0..graph.len() {
        search_from(&mut walk, graph, root)?;
    }
    let ranks = classes(alloc, walk.marks.as_slice())?;
    Ok(ranks)
}
