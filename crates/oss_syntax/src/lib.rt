//! What a specification is made of: its tokens, the terminals of its grammar, and its tree.
#![tactic(auto)]

mod component;
mod expression;
mod interface;
mod laws;
mod refinement;
mod same;
mod terminal;
mod token;
mod types;
mod words;

pub use component::{SpecTree, TreeComponent};
pub use expression::{BinaryWord, Expr, PortWord, PrefixWord, Role};
pub use interface::{InterfaceItem, InterfaceItems};
pub use laws::trees_are_distinct;
pub use refinement::{RefinementItem, RefinementItems, TargetTree};
pub use terminal::Mark;
pub use token::{Token, TokenKind, Tokens};
pub use types::{BoundTree, TypeTree};
pub use words::{PartWord, PartWords, Word, Words};
