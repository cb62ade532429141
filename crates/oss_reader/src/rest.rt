//! What is left to read of a text. Main item: `Rest`. No code but the type.

ghost use Rattle.std.specs.Prelude.{All};
ghost use Rattle.oss_reader.specs.Readable.{IsReadable};

use oss_syntax::Token;

/// What is left to read: the tokens that come, and the text in which they stand.
#[derive(Clone, Copy, Debug)]
pub struct Rest<'a> {
    pub bytes: &'a [u8],
    pub tokens: &'a [Token],
    ghost readable: { All (IsReadable bytes.now) tokens.now },
}
