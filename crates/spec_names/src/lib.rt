//! The names of a specification: what each of them means, and the faults of names. Main function: `names_of`. It
//! touches memory alone.
#![tactic(auto)]

mod again;
mod components;
mod connections;
mod containment;
mod directory;
mod enumerators;
mod interfaces;
mod laws;
mod noting;
mod pairs;
mod refinements;
mod subcomponents;
mod table;
mod uses;
mod visible;
mod words;

pub use directory::{Directory, Names, names_of, refinement_items};
pub use interfaces::InterfaceTables;
pub use laws::directory_has_tables;
pub use refinements::RefinementTables;
pub use table::PlaceTable;
