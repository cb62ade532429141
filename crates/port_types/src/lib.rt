//! Types, values and the small lists that every crate above speaks of.
//!
//! A list here is one type over `Vec`, which contracts see as a plain list, so that a copy equals what it
//! copies.
#![tactic(auto)]

mod interval;
mod laws;
mod limits;
mod lists;
mod memory;
mod sets;
mod steps;
mod types;

pub use interval::Interval;
pub use laws::{each_value_once, sets_by_members, values_by_kind};
pub use limits::{LARGEST_NUMERAL, MOST_PARTS, limits_of_types};
pub use lists::{Bytes, ListOf, Name, Names, Sets, Text, TryCopy};
pub use memory::NoMemory;
pub use sets::Set24;
pub use steps::{OneRun, StepLedger, Steps};
pub use types::{PortId, PortType, Value};
