//! Valuations, lists of them, lassos, and what is known of a question. They touch memory alone.

ghost use Rattle.std.specs.Prelude.{◌≡◌, ◌<◌, IfOk, length};

use port_types::{ListOf, NoMemory, Value};

/// A value for each port, by port number.
pub type Valuation = ListOf<Value>;

/// Valuations in order.
pub type Valuations = ListOf<Valuation>;

/// States and the place to which the last one goes back. It stands for an infinite trace, its word.
#[derive(Debug, Drop)]
pub struct Lasso {
    pub states: Valuations,
    pub loop_at: usize,
    ghost in_range: { loop_at < length states },
}

impl Lasso {
    /// An equal lasso.
    pub fn copy(&self) -> Result<Lasso, NoMemory>
        ensures { IfOk result (λ copy. copy ≡ self.now) }
    {
        let states = self.states.copy()?;
        Ok(Lasso {
            states,
            loop_at: self.loop_at,
        })
    }
}

/// What is known of a question: it is refuted by a lasso, proved, or neither.
#[derive(Debug, Drop)]
pub enum Verdict {
    Refuted(Lasso),
    Proved,
    Undecided,
}
