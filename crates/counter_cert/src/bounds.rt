//! Guards, guarded bounds, certificates and their logs, as data. They touch memory alone.

use clause_log::ChainLog;
use core_ltl::SignedNode;
use port_types::ListOf;

/// Members of a closure with signs, none of them twice.
pub type Guard = ListOf<SignedNode>;

/// A guard, and the most progress that may go with a state in which it holds: -1 where none may.
#[derive(Debug, Drop)]
pub struct GuardedBound {
    pub guard: Guard,
    pub bound: i32,
}

/// Guarded bounds in order.
pub type Certificate = ListOf<GuardedBound>;

/// The derivations by which a certificate is checked: that it is met at the start, and that each step keeps it.
#[derive(Debug, Drop)]
pub struct CertLogs {
    pub start: ChainLog,
    pub step: ChainLog,
}
