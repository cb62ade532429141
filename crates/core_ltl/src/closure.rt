//! Closures: the core formulas that were added, each as one node. The main functions are
//! `Closure::desugar` and `Closure::desugar_within`. May touch the allocator.

ghost use Rattle.std.specs.Prelude.{◌≡◌, ℕ, ◌+◌, ◌*◌, ◌^◌, ◌<◌, ◌≤◌, ◌↔◌, [], length, IfOk, OnOk, OnErr, IsErrOf};
ghost use Rattle.typed_ltl.specs.Formulas.{meaning};
ghost use Rattle.typed_ltl.specs.Sizes.{formula_size};
ghost use Rattle.typed_ltl.specs.Traces.{Trace};
ghost use Rattle.typed_ltl.specs.Truth.{Holds};
ghost use Rattle.core_ltl.specs.CoreFormulas.{core_form};
ghost use Rattle.core_ltl.specs.Nodes.{members, StandsFor, NodeHolds, IsClosure, KeepsNumbers};
ghost use Rattle.core_ltl.specs.Order.{after_formula};

use crate::laws::core_forms_keep_truth;
use crate::node::{Node, NodeId};
use crate::stop::ClosureStop;
use crate::table::Table;
use crate::walk::walk;
use port_types::NoMemory;
use std::alloc::Global;
use std::marker::Model;
use typed_ltl::{Atom, Formula};

/// The nodes of some core formulas, each once and operands first, and their atoms. Contracts see both lists.
#[derive(Drop)]
pub struct Closure {
    table: Table,
}

impl Model for Closure {
    ghost use Rattle.core_ltl.specs.Nodes.{Listing};
    ghost use Rattle.typed_ltl.specs.contracts.term.Term as term;
    ghost use Rattle.std.specs.Coded.{codes};

    ghost Value = { Listing };

    ghost coded = { Prim.hlevel (codes, term.the_row.coded) };

    ghost use Rattle.core_ltl.specs.Tables.{table_listing, IsTable};

    ghost view = { λ c. table_listing c.table };

    ghost invariant = { λ c. IsTable c.table };
}

impl Closure {
    /// A closure without nodes.
    pub fn new(alloc: Global) -> Closure
        ensures nodes { result.nodes ≡ [] }
        ensures atoms { result.atoms ≡ [] }
    {
        Closure {
            table: Table::new(alloc),
        }
    }

    /// The nodes, by their numbers.
    pub fn nodes(&self) -> &[Node]
        ensures nodes { result.now ≡ self.now.nodes }
        ensures few { length self.now.nodes < 2 ^ 32 }
        ensures closed { IsClosure (members self.now) }
    {
        self.table.nodes.as_slice()
    }

    /// The atoms, by their numbers.
    pub fn atoms(&self) -> &[Atom]
        ensures atoms { result.now ≡ self.now.atoms }
        ensures few { length self.now.atoms ≤ length self.now.nodes }
    {
        self.table.atoms.as_slice()
    }

    /// The node of a formula's core form, which is added where it is not there, with its parts.
    pub fn desugar(&mut self, alloc: Global, f: &Formula) -> Result<NodeId, NoMemory>
        requires { length self.old.nodes + 8 * formula_size (meaning f.now) < 2 ^ 32 }
        ensures order { IfOk result (λ node.
            (members self.new, node) ≡ after_formula (members self.old) (core_form (meaning f.now))) }
        ensures stands { IfOk result (λ node. StandsFor (members self.new) node.0 (core_form (meaning f.now))) }
        ensures truth { IfOk result (λ node. (w : Trace) (i : ℕ)
            → Holds w (meaning f.now) i ↔ NodeHolds (members self.new) w node.0 i) }
        ensures kept { KeepsNumbers self.old self.new }
        ensures closed { IsClosure (members self.new) }
        ensures err { OnErr result (self.new ≡ self.old) }
    {
        match self.desugar_within(alloc, f, u32::MAX) {
            Ok(node) => Ok(node),
            Err(ClosureStop::NoMemory) => Err(NoMemory),
            Err(ClosureStop::TooLarge) => unreachable!(),
        }
    }

    /// As `desugar`, with a limit on the number of nodes that the closure has afterwards.
    ///
    /// It ends at the first node over the limit, and nothing is added then.
    pub fn desugar_within(
        &mut self,
        alloc: Global,
        f: &Formula,
        limit: u32,
    ) -> Result<NodeId, ClosureStop>
        requires { length self.old.nodes ≤ limit }
        ensures order { IfOk result (λ node.
            (members self.new, node) ≡ after_formula (members self.old) (core_form (meaning f.now))) }
        ensures within { OnOk result (length self.new.nodes ≤ limit) }
        ensures too_large { IsErrOf result ClosureStop.TooLarge
            → limit < length (after_formula (members self.old) (core_form (meaning f.now))).0.nodes }
        ensures stands { IfOk result (λ node. StandsFor (members self.new) node.0 (core_form (meaning f.now))) }
        ensures truth { IfOk result (λ node. (w : Trace) (i : ℕ)
            → Holds w (meaning f.now) i ↔ NodeHolds (members self.new) w node.0 i) }
        ensures kept { KeepsNumbers self.old self.new }
        ensures closed { IsClosure (members self.new) }
        ensures err { OnErr result (self.new ≡ self.old) }
    {
        // a law, no code runs
        core_forms_keep_truth();
        let nodes = self.table.nodes.len();
        let atoms = self.table.atoms.len();
        match walk(&mut self.table, alloc, limit, f) {
            Ok(node) => Ok(node),
            Err(stop) => {
                self.table.nodes.truncate(nodes);
                self.table.atoms.truncate(atoms);
                Err(stop)
            }
        }
    }
}
