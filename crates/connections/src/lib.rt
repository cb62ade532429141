//! Connections: what each port of a refinement stands for, and formulas over the free ports alone.
#![tactic(auto)]

mod contracts;
mod driving;
mod forms;
mod in_next;
mod laws;
mod over_free;
mod port_forms;
mod port_row;
mod sizes;
mod substituting;

pub use contracts::contracts_at;
pub use driving::{Driver, Drivers, port_drivers};
pub use laws::substitution_keeps_truth;
pub use sizes::{size, size_by};
pub use substituting::{LevelFormulas, Part, Parts, substitute, substitute_by};
