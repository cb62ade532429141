//! The lists of which a specification is made. Contracts see them as plain lists, in text order. It touches
//! nothing outside.

ghost use Rattle.std.specs.Prelude.{◌≡◌, [], ◌∷◌, ◌++◌, ◌↔◌, IsTrue, OnOk, OnErr, length};

use crate::contract::Contract;
use crate::item::Item;
use crate::port::{FreePort, OwnPort};
use crate::spec::Component;
use crate::sub::Sub;
use crate::wire::Wire;
use oss_base::{ContractId, SubId};
use port_types::{ListOf, NoMemory, PortId};
use std::alloc::Global;
use std::marker::Model;

/// The components of a specification, in text order. Contracts see the list of them.
#[derive(Debug, Drop)]
pub struct Components {
    components: Vec<Component>,
}

impl Model for Components {
    ghost use Rattle.std.specs.Prelude.{List};
    ghost use Rattle.spec_model.specs.declared.spec.Component.{Component};
    ghost use Rattle.typed_ltl.specs.contracts.formula.Formula as formula;
    ghost use Rattle.typed_ltl.specs.contracts.term.Term as term;
    ghost use Rattle.std.specs.Coded.{codes};

    ghost Value = { List Component };

    ghost coded = { Prim.hlevel (codes, formula.the_row.coded, term.the_row.coded) };

    ghost view = { λ l. l.components.items };
}

impl Components {
    pub fn new(alloc: Global) -> Components
        ensures { result ≡ [] }
    {
        Components {
            components: Vec::new(alloc),
        }
    }

    pub(crate) fn allocator(&self) -> Global {
        *self.components.allocator()
    }

    pub fn as_slice(&self) -> &[Component]
        ensures { result.now ≡ self.now }
    {
        self.components.as_slice()
    }

    pub fn len(&self) -> usize
        ensures { result ≡ length self.now }
    {
        self.components.len()
    }

    pub fn is_empty(&self) -> bool
        ensures { IsTrue result ↔ (self.now ≡ []) }
    {
        self.components.is_empty()
    }

    /// Puts a component at the end.
    pub fn push(&mut self, component: Component) -> Result<(), NoMemory>
        ensures ok { OnOk result (self.new ≡ self.old ++ component ∷ []) }
        ensures err { OnErr result (self.new ≡ self.old) }
    {
        self.components.push(component)?;
        Ok(())
    }
}

/// The ports of a component, in text order.
pub type OwnPorts = ListOf<OwnPort>;

/// The free ports of a component, in their order.
pub type FreePorts = ListOf<FreePort>;

/// How often each port is read.
pub type PortUses = ListOf<(PortId, u32)>;

/// The contracts of a component, in text order.
pub type Contracts = ListOf<Contract>;

/// The subcomponents of a component, in text order.
pub type Subs = ListOf<Sub>;

/// The connections of a component, in text order.
pub type Wires = ListOf<Wire>;

/// The contracts of subcomponents by which a contract is refined, in text order.
pub type ItemParts = ListOf<(SubId, ContractId)>;

/// The refined contracts of all components, in text order.
pub type Items = ListOf<Item>;
