//! Obligations: their names, instances and traces of the whole system, and what follows for these where every question
//! of the reached levels is valid. The main functions are the law `contracts_compose` and `ObligationName::text`; the
//! crate may touch the allocator and nothing else.
#![tactic(auto)]

mod laws;
mod name;

pub use laws::contracts_compose;
pub use name::{ObligationName, component_name, contract_name, sub_name};
