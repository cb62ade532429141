//! The lexer: from the bytes of a specification to its tokens, or to its first lexing fault.
#![tactic(auto)]

mod bytes;
mod front;
mod laws;
mod lexing;

pub use laws::{
    one_first_fault, one_piece, one_token_list, tokens_or_fault, tokens_stand, tokens_without_fault,
};
pub use lexing::lex;
