//! The order in which decisions look at the variables: those of the clauses learnt last come first (A. Biere and A. Fröhlich,
//! Evaluating CDCL Variable Scoring Schemes, 2015). It is advice: no contract rests on it, and that each variable has a value
//! is found by their numbers.
//!
//! Main function: `Decisions::next`. It touches the place that it is lent.

ghost use Rattle.std.specs.Prelude.{◌≡◌, ◌<◌, length, IfSome, None, slice_index_or};

use crate::trail::Trail;
use cnf::{Clause, Lit};
use decision_queue::DecisionQueue;
use std::alloc::Global;

/// Where in the order a search looks next.
#[derive(Clone, Copy, Debug)]
pub enum OrderPlace {
    Front,
    At(usize),
    End,
}

/// The order of the variables, and how many learnt clauses it has taken note of.
#[derive(Debug, Drop)]
pub struct Decisions {
    queue: DecisionQueue,
    noted: usize,
}

impl Decisions {
    /// No variables.
    pub fn new(alloc: Global) -> Decisions {
        Decisions {
            queue: DecisionQueue::new(alloc),
            noted: 0,
        }
    }

    /// Puts variables at the end up to so many, as far as memory is there.
    pub fn widen(&mut self, vars: usize) {
        for _ in self.queue.len()..vars {
            if self.queue.add_var().is_err() {
                return;
            }
        }
    }

    /// Moves the variables of a clause to the front, its first one last.
    fn prefer(&mut self, lits: &[Lit]) {
        for lit in lits.iter().rev() {
            if lit.var < self.queue.len() {
                self.queue.to_front(lit.var);
            }
        }
    }

    /// Moves the variables of the clauses that were learnt since the last call to the front.
    pub fn prefer_learnt(&mut self, learnt: &[Clause]) {
        for number in self.noted..learnt.len() {
            self.prefer(learnt[number].as_slice());
        }
        self.noted = learnt.len();
    }

    /// The variable at a place, if there is one.
    fn at(&self, place: OrderPlace) -> Option<usize> {
        match place {
            OrderPlace::Front => self.queue.front(),
            OrderPlace::At(var) => Some(var),
            OrderPlace::End => None,
        }
    }

    /// The place behind a variable.
    fn behind(&self, var: usize) -> OrderPlace {
        if var < self.queue.len() {
            match self.queue.next(var) {
                Some(after) => OrderPlace::At(after),
                None => OrderPlace::End,
            }
        } else {
            OrderPlace::End
        }
    }

    /// The next variable in the order without a value, with the value that it had last.
    pub fn next(&self, phases: &[bool], trail: &Trail, from: &mut OrderPlace) -> Option<Lit>
        requires vars { length phases.now ≡ length trail.now.places.items }
        ensures some { IfSome result (λ lit. (lit.var < length trail.now.places.items)
            × (slice_index_or trail.now.places.items lit.var None ≡ None)) }
    {
        for _ in 0..self.queue.len() {
            let Some(var) = self.at(*from) else {
                return None;
            };
            *from = self.behind(var);
            if var < phases.len() && trail.is_free(var) {
                return Some(Lit {
                    var,
                    positive: phases[var],
                });
            }
        }
        None
    }
}
