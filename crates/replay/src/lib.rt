//! Lasso files: the lasso that a text means, or the first line at which it means none, the text of a lasso, and what a
//! lasso says of contracts. Main functions: `read_lasso`, `write_lasso`, `judge`. The crate may touch the allocator and
//! nothing else.
#![tactic(auto)]

mod block;
mod driven;
mod free_ports;
mod header;
mod judgement;
mod judging;
mod laws;
mod lines;
mod named;
mod numbers;
mod places;
mod reading;
mod states;
mod values;

pub use block::write_lasso;
pub use free_ports::free_names;
pub use judgement::{Judgement, Judgements};
pub use judging::judge;
pub use laws::{
    blocks_read_back, judgements_are_unique, lassos_are_moderate, lassos_dont_break,
    seen_traces_are_connected, texts_mean_one_lasso,
};
pub use named::{LassoStop, NamedLasso};
pub use reading::read_lasso;
