//! A level: the ports that its formulas read, its closure, and the nodes of its formulas. It touches nothing
//! outside.

ghost use Rattle.std.specs.Prelude.{◌≡◌, true};
ghost use Rattle.levels.specs.Rising.{is_rising};

use core_ltl::{Closure, NodeId};
use oss_base::{ComponentId, SubId};
use port_types::ListOf;
use std::alloc::Global;
use typed_ltl::Ports;

/// The nodes of a listed contract: of its assumption, of its guarantee, and of its normal form, which is that
/// the first implies the second.
#[derive(Clone, Copy, Debug)]
pub struct PartNodes {
    pub sub: SubId,
    pub assume: NodeId,
    pub guarantee: NodeId,
    pub normal_form: NodeId,
}

/// A refined contract with the listed ones. The ports are the free ports of the component that occur in the
/// formulas, in the free order; `places` has the place of each in that order, and the atoms of the closure
/// count these ports.
#[derive(Drop)]
pub struct Level {
    pub component: ComponentId,
    pub places: ListOf<u32>,
    pub ports: Ports,
    pub closure: Closure,
    pub assume: NodeId,
    pub guarantee: NodeId,
    pub parts: Vec<PartNodes>,
    ghost rises: { is_rising 0 places ≡ true },
}

/// The levels of a specification, in the order of its items.
pub type LevelList = ListOf<Level>;

impl Level {
    /// The core formulas of the level.
    pub fn closure(&self) -> &Closure
        ensures { result.now ≡ self.now.closure }
    {
        &self.closure
    }

    /// The types of the ports that occur.
    pub fn ports(&self) -> &Ports
        ensures { result.now ≡ self.now.ports }
    {
        &self.ports
    }

    pub(crate) fn allocator(&self) -> Global {
        *self.parts.allocator()
    }
}
