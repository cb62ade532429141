//! Levels: the closure of each refined contract with those that refine it, its questions, and the first level
//! that is too large. The main function is `levels`; the crate may touch the allocator and nothing else.
#![tactic(auto)]

mod building;
mod deciding;
mod level;
mod limits;
mod places;
mod questions;
mod reading;
mod renumbering;
mod scope;
mod widening;

pub use deciding::levels;
pub use level::{Level, LevelList, PartNodes};
