//! Counter certificates: bounds on progress, under guards, that show of every infinite trace that it does not break a
//! question.
//!
//! The definitions in `specs/` say what progress is (`Progress`) and what a certificate is (`Certificates`), that a
//! question that has one is valid (`Laws`), and, as part of the certificate format, which clauses its two logs refute
//! (`StartClauses`, `StepClauses`, `Checking`). Main functions: `start_cnf`, `step_cnf`, `verify`, and the law
//! `certificates_make_valid`. They touch memory alone.
#![tactic(auto)]

mod bounds;
mod cases;
mod clauses;
mod counting;
mod form;
mod laws;
mod literals;
mod met;
mod start;
mod step;
mod verification;

pub use bounds::{CertLogs, Certificate, Guard, GuardedBound};
pub use laws::certificates_make_valid;
pub use start::start_cnf;
pub use step::step_cnf;
pub use verification::verify;
