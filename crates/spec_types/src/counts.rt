//! How often each port occurs in an expression, and how large the expression is. It touches nothing outside.

ghost use Rattle.std.specs.Prelude.{◌≡◌, ◌+◌, ◌++◌, [], length, slice_get, option_map, IfOk, OnOk};
ghost use Rattle.std.specs.List.{cons_option};
ghost use Rattle.oss_syntax.specs.Expressions.{tree};
ghost use Rattle.spec_types.specs.Uses as specs;
ghost use Rattle.spec_types.specs.Walks as walks;

use crate::ports::PortRead;
use indexmap::IndexMap;
use oss_syntax::{Expr, PortWord};
use port_types::{NoMemory, PortId};
use spec_model::PortUses;
use std::alloc::Global;
use std::marker::Model;

/// How often each port occurs, in the order of first occurrences. Contracts see the list of ports with
/// their counts.
#[derive(Drop)]
pub struct Counts {
    counts: IndexMap<u32, u32>,
}

impl Model for Counts {
    ghost use Rattle.std.specs.Prelude.{List, ℕ, map};
    ghost use Rattle.port_types.specs.declared.types.PortId.{PortId};
    ghost use Rattle.spec_types.specs.Walks.{counted_port};

    ghost Value = { List (PortId × ℕ) };

    ghost view = { λ c. map counted_port c.counts.entries };
}

impl Counts {
    pub fn new(alloc: Global) -> Counts
        ensures { result ≡ [] }
    {
        Counts {
            counts: IndexMap::new(alloc),
        }
    }

    /// How often a port has occurred.
    fn count(&self, port: u32) -> u32
        ensures { result ≡ walks.occurrences self.now port }
    {
        match self.counts.get(&port) {
            Some(count) => *count,
            None => 0,
        }
    }

    /// Counts one more occurrence of a port.
    fn add(&mut self, port: u32) -> Result<(), NoMemory>
        ensures { OnOk result (self.new ≡ specs.count_one self.old port) }
    {
        let count = sum(self.count(port), 1)?;
        self.counts.insert(port, count)?;
        Ok(())
    }

    fn add_twice(&mut self, port: u32) -> Result<(), NoMemory>
        ensures { OnOk result (self.new ≡ specs.count_one (specs.count_one self.old port) port) }
    {
        self.add(port)?;
        self.add(port)
    }

    /// Counts the port that a name reads.
    pub(crate) fn add_name(&mut self, port: Option<PortRead>) -> Result<(), NoMemory>
        ensures { OnOk result (self.new ≡ specs.count_each self.old (specs.name_reads
            (option_map walks.port port.entry))) }
    {
        match port {
            Some(port) => self.add(port.number.0),
            None => Ok(()),
        }
    }

    /// Counts the port that `next` and its kin read.
    pub(crate) fn add_wanted(
        &mut self,
        word: PortWord,
        port: Option<PortRead>,
    ) -> Result<(), NoMemory>
        ensures { OnOk result (self.new ≡ specs.count_each self.old (specs.wanted_reads word
            (option_map walks.port port.entry))) }
    {
        match port {
            None => Ok(()),
            Some(port) => match word {
                PortWord::Next => self.add(port.number.0),
                PortWord::Change => self.add_twice(port.number.0),
                PortWord::Rise => self.add_twice(port.number.0),
                PortWord::Fall => self.add_twice(port.number.0),
            },
        }
    }

    fn len(&self) -> usize
        ensures { result ≡ length self.now }
    {
        self.counts.len()
    }

    fn get(&self, place: usize) -> Option<(PortId, u32)>
        ensures { result ≡ slice_get self.now place }
    {
        match self.counts.get_index(place) {
            Some((port, count)) => Some((PortId(*port), *count)),
            None => None,
        }
    }

    /// The counts, as they are kept.
    #[tactic(auto, using(crate::proofs::Counting::taken_more))]
    pub(crate) fn port_uses(&self, alloc: Global) -> Result<PortUses, NoMemory>
        ensures { IfOk result (λ uses. uses ≡ self.now) }
    {
        let mut uses = PortUses::new(alloc);
        for place in 0..self.len() {
            put_use(&mut uses, self.get(place))?;
        }
        Ok(uses)
    }
}

fn put_use(uses: &mut PortUses, port_use: Option<(PortId, u32)>) -> Result<(), NoMemory>
    ensures { OnOk result (uses.new ≡ uses.old ++ cons_option port_use []) }
{
    match port_use {
        Some(port_use) => uses.push(port_use),
        None => Ok(()),
    }
}

fn sum(left: u32, right: u32) -> Result<u32, NoMemory>
    ensures { IfOk result (λ sum. sum ≡ left + right) }
{
    left.checked_add(right).ok_or(NoMemory)
}

fn port_word_size(word: PortWord) -> u32
    ensures { result ≡ specs.port_word_size word }
{
    match word {
        PortWord::Next => 1,
        PortWord::Change => 4,
        PortWord::Rise => 4,
        PortWord::Fall => 4,
    }
}

/// The size of an expression: how many operators, ports and constants it has.
pub(crate) fn size(expr: &Expr) -> Result<u32, NoMemory>
    ensures { IfOk result (λ size. size ≡ specs.expression_size (tree expr.now)) }
{
    match expr {
        Expr::Name(_) => Ok(1),
        Expr::Dotted(_, _) => Ok(1),
        Expr::Numeral(_, _) => Ok(1),
        Expr::Truth(_, _) => Ok(1),
        Expr::Brackets(inside, _) => size(inside.get()),
        Expr::OfPort(word, _, _) => Ok(port_word_size(*word)),
        Expr::Prefix(_, operand, _) => sum(1, size(operand.get())?),
        Expr::Binary(_, left, right, _) => {
            let left = size(left.get())?;
            let right = size(right.get())?;
            sum(sum(1, left)?, right)
        }
    }
}
