//! Numbers by which the parts of a specification are named. They have no calls.

/// The place of a component in the list of components, counted from 0.
#[derive(Clone, Copy, Debug, PartialEq, Eq)]
pub struct ComponentId(pub u32);

/// The place of a subcomponent in the list of its component, counted from 0.
#[derive(Clone, Copy, Debug, PartialEq, Eq)]
pub struct SubId(pub u32);

/// The place of a contract in the list of its component, counted from 0.
#[derive(Clone, Copy, Debug, PartialEq, Eq)]
pub struct ContractId(pub u32);

/// The place of a `CONTRACT .. REFINEDBY ..` item among those of the file, counted from 0.
#[derive(Clone, Copy, Debug, PartialEq, Eq)]
pub struct ItemId(pub u32);

/// The place of an instance of a component, counted from 0.
#[derive(Clone, Copy, Debug, PartialEq, Eq)]
pub struct InstanceId(pub u32);
