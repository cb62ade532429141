//! Reads the tokens of a specification into its tree.
#![tactic(auto)]

mod component;
mod cursor;
mod expressions;
mod halt;
mod interface;
mod lead;
mod measured;
mod refinement;
mod rest;
mod terminals;
mod top;
mod types;
mod words;

pub use top::read_tree;
