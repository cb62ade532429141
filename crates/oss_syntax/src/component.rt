//! Components and specifications as they are written. Main items: `TreeComponent`, `SpecTree`.

ghost use Rattle.std.specs.Prelude.{◌≡◌, [], ◌∷◌, ◌++◌, ◌↔◌, IsTrue, OnOk, OnErr, length};

use crate::interface::InterfaceItems;
use crate::refinement::RefinementItems;
use crate::words::Word;
use oss_base::Span;
use port_types::NoMemory;
use std::alloc::Global;
use std::marker::Model;

/// A component. The span is that of the word `system`, where it stands. A refinement without items
/// is kept.
#[derive(Debug, Drop)]
pub struct TreeComponent {
    pub name: Word,
    pub system: Option<Span>,
    pub interface: InterfaceItems,
    pub refinement: Option<RefinementItems>,
}

/// A specification as it is written: its components in order. Contracts see the list of them.
#[derive(Debug, Drop)]
pub struct SpecTree {
    components: Vec<TreeComponent>,
}

impl Model for SpecTree {
    ghost use Rattle.std.specs.Prelude.{List};
    ghost use Rattle.oss_syntax.specs.declared.component.TreeComponent.{TreeComponent};
    ghost use Rattle.oss_syntax.specs.contracts.expression.Expr as expr;
    ghost use Rattle.std.specs.Coded.{codes};

    ghost Value = { List TreeComponent };

    ghost coded = { Prim.hlevel (codes, expr.the_row.coded) };

    ghost view = { λ l. l.components.items };
}

impl SpecTree {
    pub fn new(alloc: Global) -> SpecTree
        ensures { result ≡ [] }
    {
        SpecTree {
            components: Vec::new(alloc),
        }
    }

    pub fn from_vec(components: Vec<TreeComponent>) -> SpecTree
        ensures { result ≡ components.items }
    {
        SpecTree { components }
    }

    pub fn into_vec(self) -> Vec<TreeComponent>
        ensures { result.items ≡ self }
    {
        let SpecTree { components } = self;
        components
    }

    pub fn as_slice(&self) -> &[TreeComponent]
        ensures { result.now ≡ self.now }
    {
        self.components.as_slice()
    }

    pub fn len(&self) -> usize
        ensures { result ≡ length self.now }
    {
        self.components.len()
    }

    pub fn is_empty(&self) -> bool
        ensures { IsTrue result ↔ (self.now ≡ []) }
    {
        self.components.is_empty()
    }

    /// Puts one more at the end.
    pub fn push(&mut self, last: TreeComponent) -> Result<(), NoMemory>
        ensures ok { OnOk result (self.new ≡ self.old ++ last ∷ []) }
        ensures err { OnErr result (self.new ≡ self.old) }
    {
        self.components.push(last)?;
        Ok(())
    }
}
