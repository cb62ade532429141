//! Places in a text, faults of a file and the first of them, the limits of the language, and the typed
//! numbers by which the parts of a specification are named.
#![tactic(auto)]

mod fault;
mod first_site;
mod ids;
mod laws;
mod limits;
mod place;
mod sites;

pub use fault::{Fault, FaultKind, Stop};
pub use first_site::FirstSite;
pub use ids::{ComponentId, ContractId, InstanceId, ItemId, SubId};
pub use laws::{first_is_least, first_of_both, numbers_tell_kinds};
pub use limits::{
    LARGEST_NUMERAL, MOST_BYTES, MOST_CLOSURE_MEMBERS, MOST_COMPONENTS, MOST_GUARDS, MOST_HEIGHT,
    MOST_INSTANCES, MOST_LEVEL_SIZE, MOST_PARTS, MOST_VALUE_BITS, limits_of_files,
};
pub use place::{Place, Span, place_of};
pub use sites::FaultSite;
