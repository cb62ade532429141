//! The canonical text of a specification: one text for each tree, which reads back as the same tree. Main function:
//! `print`. Allocates the text, and touches nothing else.
#![tactic(auto)]

mod expressions;
mod items;
mod laws;
mod printing;
mod words;

pub use laws::{canonical_text_reads_back, spans_make_no_difference};
pub use printing::print;
