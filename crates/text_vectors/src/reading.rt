//! The tree of a text. Main function: `read`. Touches memory.

use oss_base::{MOST_BYTES, Stop};
use oss_lexer::lex;
use oss_reader::read_tree;
use oss_syntax::SpecTree;
use std::alloc::Global;

/// What reading a text answers. No text of these tests is longer than may be read.
pub(crate) fn read(alloc: Global, text: &[u8]) -> Result<SpecTree, Stop> {
    if text.len() > MOST_BYTES {
        return Err(Stop::NoMemory);
    }
    let tokens = lex(alloc, text)?;
    read_tree(alloc, text, &tokens)
}
