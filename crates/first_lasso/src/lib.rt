//! The first lasso with a property, the ports that a property reads, and state properties.
//!
//! Definitions stand in `specs/`: what the first lasso is (`FirstLassos`), how a lasso of the used ports is widened to
//! all ports (`UsedPorts`), and the laws for formulas (`Laws`). The laws for every property are lemmas in `proofs/`.
//! May touch nothing.
#![tactic(auto)]

mod laws;

pub use laws::{
    first_lassos, one_position_is_enough, ranks_are_places, read_ports_decide,
    unused_ports_change_nothing, words_are_over,
};
