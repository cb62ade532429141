//! Whether a state meets a guarded bound, by the truth values of its members. Touches nothing.

ghost use Rattle.std.specs.Prelude.{◌≡◌, ◌↔◌, IsTrue, All, false, slice_index_or};
ghost use Rattle.tableau.specs.TableauStates.{TableauState};
ghost use Rattle.counter_cert.specs.Certificates.{IsUpTo, MeetsBound};

use crate::bounds::GuardedBound;
use core_ltl::SignedNode;

/// Whether a member has its sign; one that is not there is false.
fn is_signed(members: &[bool], x: SignedNode) -> bool
    ensures { IsTrue result ↔ (slice_index_or members.now x.node.0 false ≡ x.positive) }
{
    match members.get(x.node.0 as usize) {
        Some(holds) => *holds == x.positive,
        None => !x.positive,
    }
}

/// Whether each member of a guard has its sign.
fn holds_guard(guard: &[SignedNode], members: &[bool]) -> bool
    ensures { IsTrue result ↔ All (λ x. slice_index_or members.now x.node.0 false ≡ x.positive) guard.now }
{
    guard.iter().all(|x| is_signed(members, *x))
}

/// Whether a progress is at most a bound.
fn is_up_to(progress: u32, bound: i32) -> bool
    ensures { IsTrue result ↔ IsUpTo progress bound }
{
    0 <= bound && i64::from(progress) <= i64::from(bound)
}

impl GuardedBound {
    /// Whether a state in which these members hold, by their numbers, meets the guarded bound with a progress.
    pub fn met(&self, members: &[bool], progress: u32) -> bool
        ensures { (s : TableauState) → s.holding ≡ members.now → (IsTrue result ↔ MeetsBound s progress self.now) }
    {
        if holds_guard(self.guard.as_slice(), members) {
            is_up_to(progress, self.bound)
        } else {
            true
        }
    }
}
