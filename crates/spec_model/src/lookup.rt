//! The parts of a specification by their places. What does not exist is empty. It touches nothing outside.

ghost use Rattle.std.specs.Prelude.{◌≡◌, slice_get};
ghost use Rattle.std.specs.Option.{option_copied};
ghost use Rattle.spec_model.specs.Architecture.{ports_of as ports_by, contracts_of as contracts_by};
ghost use Rattle.spec_model.specs.Architecture.{subs_of as subs_by, wires_of as wires_by};
ghost use Rattle.spec_model.specs.Architecture.{sub_component as component_by, ports_at as ports_by_sub};

use crate::contract::Contract;
use crate::port::OwnPort;
use crate::spec::{Component, Spec};
use crate::sub::Sub;
use crate::wire::Wire;
use oss_base::{ComponentId, SubId};
use sqlite_items::at;

impl Spec {
    /// The component at this place.
    pub fn component(&self, c: ComponentId) -> Option<&Component>
        ensures { option_copied result ≡ slice_get self.now.components c.0 }
    {
        at(self.components.as_slice(), c.0 as usize)
    }

    /// The ports of a component, in text order.
    pub fn ports_of(&self, c: ComponentId) -> &[OwnPort]
        ensures { result.now ≡ ports_by self.now c }
    {
        match self.component(c) {
            Some(component) => component.ports.as_slice(),
            None => &[],
        }
    }

    /// The contracts of a component, in text order.
    pub fn contracts_of(&self, c: ComponentId) -> &[Contract]
        ensures { result.now ≡ contracts_by self.now c }
    {
        match self.component(c) {
            Some(component) => component.contracts.as_slice(),
            None => &[],
        }
    }

    /// The subcomponents of a component, in text order.
    pub fn subs_of(&self, c: ComponentId) -> &[Sub]
        ensures { result.now ≡ subs_by self.now c }
    {
        match self.component(c) {
            Some(component) => component.subs.as_slice(),
            None => &[],
        }
    }

    /// The connections of a component, in text order.
    pub fn wires_of(&self, c: ComponentId) -> &[Wire]
        ensures { result.now ≡ wires_by self.now c }
    {
        match self.component(c) {
            Some(component) => component.wires.as_slice(),
            None => &[],
        }
    }

    /// The component that a subcomponent is an instance of.
    pub fn sub_component(&self, c: ComponentId, s: SubId) -> Option<ComponentId>
        ensures { result ≡ component_by self.now c s }
    {
        match at(self.subs_of(c), s.0 as usize) {
            Some(sub) => Some(sub.component),
            None => None,
        }
    }

    /// The ports of the component itself, or of one of its subcomponents.
    pub fn ports_at(&self, c: ComponentId, sub: Option<SubId>) -> &[OwnPort]
        ensures { result.now ≡ ports_by_sub self.now c sub }
    {
        match sub {
            None => self.ports_of(c),
            Some(sub) => match self.sub_component(c, sub) {
                Some(component) => self.ports_of(component),
                None => &[],
            },
        }
    }
}
