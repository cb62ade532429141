//! Whether guarded bounds have the form that a certificate wants.
//!
//! Main function: `has_form`. Touches nothing.

ghost use Rattle.std.specs.Prelude.{◌≢◌, ◌↔◌, ◌<◌, IsTrue, All};
ghost use Rattle.counter_cert.specs.Certificates.{NamesOnce, IsGuard, IsProgressBound, IsGuardedBound, HasUnguarded};

use crate::bounds::GuardedBound;
use core_ltl::{NodeId, SignedNode};
use tableau::Tableau;

/// Whether no member has this node.
fn lacks(guard: &[SignedNode], node: NodeId) -> bool
    ensures { IsTrue result ↔ All (λ x. x.node.0 ≢ node.0) guard.now }
{
    guard.iter().all(|x| x.node.0 != node.0)
}

/// Whether no member stands twice.
fn names_once(guard: &[SignedNode]) -> bool
    ensures { IsTrue result ↔ NamesOnce guard.now }
{
    match guard.split_first() {
        None => true,
        Some((first, rest)) => lacks(rest, first.node) && names_once(rest),
    }
}

/// Whether each node is one of so many members.
fn all_known(guard: &[SignedNode], members: usize) -> bool
    ensures { IsTrue result ↔ All (λ x. x.node.0 < members) guard.now }
{
    guard.iter().all(|x| (x.node.0 as usize) < members)
}

fn is_guard(tab: &Tableau, w: u8, guard: &[SignedNode]) -> bool
    ensures { IsTrue result ↔ IsGuard tab.now w guard.now }
{
    guard.len() <= w as usize && all_known(guard, tab.members()) && names_once(guard)
}

/// Whether a bound is from -1 to the most progress.
fn is_progress_bound(most: u32, bound: i32) -> bool
    ensures { IsTrue result ↔ IsProgressBound most bound }
{
    -1 <= bound && i64::from(bound) <= i64::from(most)
}

fn is_guarded_bound(tab: &Tableau, k: u8, w: u8, entry: &GuardedBound) -> bool
    ensures { IsTrue result ↔ IsGuardedBound tab.now k w entry.now }
{
    let most = u32::from(k) * tab.conditions() as u32;
    is_guard(tab, w, entry.guard.as_slice()) && is_progress_bound(most, entry.bound)
}

fn are_guarded_bounds(tab: &Tableau, k: u8, w: u8, entries: &[GuardedBound]) -> bool
    ensures { IsTrue result ↔ All (IsGuardedBound tab.now k w) entries.now }
{
    entries
        .iter()
        .all(|entry| is_guarded_bound(tab, k, w, entry))
}

fn has_unguarded(entries: &[GuardedBound]) -> bool
    ensures { IsTrue result ↔ HasUnguarded entries.now }
{
    entries.iter().any(|entry| entry.guard.is_empty())
}

/// Whether each entry is a guarded bound, and some has no guard.
pub(crate) fn has_form(tab: &Tableau, k: u8, w: u8, entries: &[GuardedBound]) -> bool
    ensures { IsTrue result ↔ (All (IsGuardedBound tab.now k w) entries.now × HasUnguarded entries.now) }
{
    are_guarded_bounds(tab, k, w, entries) && has_unguarded(entries)
}
