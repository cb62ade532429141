//! `DecisionQueue` and its calls.

ghost use Rattle.std.specs.Prelude.{◌≡◌, ◌<◌, ◌∷◌, ◌++◌, ◌↔◌, ℕ, List, [], None, length, IsTrue, OnOk, OnErr};
ghost use Rattle.std.specs.Prelude.{slice_get};

use crate::neighbours::{Neighbours, bring_first, first_of, last_of, put_last};
use port_types::NoMemory;
use std::alloc::Global;
use std::marker::Model;

/// An order of the variables. Contracts see the list of them, first to last.
#[derive(Debug, Drop)]
pub struct DecisionQueue {
    links: Vec<Neighbours>,
    first: Option<usize>,
    last: Option<usize>,
}

impl Model for DecisionQueue {
    ghost use Rattle.std.specs.Prelude.{List, ℕ};

    ghost Value = { List ℕ };

    ghost use Rattle.decision_queue.specs.Neighbours.{order_of, IsLinkedOrder};

    ghost view = { λ q. order_of q.links.items q.first };

    ghost invariant = { λ q. IsLinkedOrder q.links.items q.first q.last (order_of q.links.items q.first) };
}

impl DecisionQueue {
    ghost use Rattle.decision_queue.specs.Order.{IsOrder};

    /// No variables.
    pub fn new(alloc: Global) -> DecisionQueue
        ensures { result ≡ [] }
    {
        DecisionQueue {
            links: Vec::new(alloc),
            first: None,
            last: None,
        }
    }

    /// The number of variables.
    pub fn len(&self) -> usize
        ensures { result ≡ length self.now }
    {
        self.links.len()
    }

    /// Whether there are no variables.
    pub fn is_empty(&self) -> bool
        ensures { IsTrue result ↔ (self.now ≡ []) }
    {
        self.links.is_empty()
    }

    /// The order is a permutation of the variables.
    pub fn order_is_whole(&self)
        ensures { IsOrder self.now }
    {
        let _opened = &self.links;
    }

    /// One more variable, whose number is the old number of variables. It goes last.
    pub fn add_var(&mut self) -> Result<(), NoMemory>
        ensures ok { OnOk result (self.new ≡ self.old ++ length self.old ∷ []) }
        ensures err { OnErr result (self.new ≡ self.old) }
    {
        let var = self.links.len();
        self.links.push(Neighbours {
            before: self.last,
            after: None,
        })?;
        put_last(&mut self.links, self.last, var);
        self.first = first_of(self.first, var);
        self.last = Some(var);
        Ok(())
    }

    /// The first variable.
    pub fn front(&self) -> Option<usize>
        ensures { result ≡ slice_get self.now 0 }
    {
        self.first
    }

    /// The variable behind one.
    pub fn next(&self, var: usize) -> Option<usize>
        requires { var < length self.now }
        ensures behind { (front back : List ℕ) → self.now ≡ front ++ var ∷ back → result ≡ slice_get back 0 }
        ensures last { (result ≡ None) ↔ ((front : List ℕ) × (self.now ≡ front ++ var ∷ [])) }
    {
        self.links[var].after
    }

    /// Moves a variable to the front. The others keep their order.
    pub fn to_front(&mut self, var: usize)
        requires { var < length self.old }
        ensures { (front back : List ℕ) → self.old ≡ front ++ var ∷ back → self.new ≡ var ∷ (front ++ back) }
    {
        let Some(first) = self.first else {
            return;
        };
        let Neighbours { before, after } = self.links[var];
        let Some(before) = before else {
            return;
        };
        bring_first(&mut self.links, var, before, after, first);
        self.last = last_of(self.last, before, after);
        self.first = Some(var);
    }
}
