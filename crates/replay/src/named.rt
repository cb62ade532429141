//! A lasso of a component, and why there is none in a text. They have no calls.

use oss_base::ComponentId;
use port_types::NoMemory;
use typed_ltl::Lasso;

/// A lasso over the free ports of a component, in their order.
#[derive(Debug, Drop)]
pub struct NamedLasso {
    pub component: ComponentId,
    pub lasso: Lasso,
}

/// Why no lasso was read: the text means none, and this is its first line that breaks, counted from 1; or want of
/// memory.
#[derive(Clone, Copy, Debug, PartialEq, Eq)]
pub enum LassoStop {
    Fault { line: u32 },
    NoMemory,
}

impl From<NoMemory> for LassoStop {
    ghost use Rattle.std.specs.Prelude.{◌≡◌};
    ghost use Rattle.replay.specs.declared.named.LassoStop.TheVariants.{NoMemory};

    ghost from_gives = { λ _ stop. stop ≡ NoMemory };

    fn from(_error: NoMemory) -> LassoStop {
        LassoStop::NoMemory
    }
}
