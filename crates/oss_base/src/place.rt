//! Places in a text. No call touches memory.

ghost use Rattle.std.specs.Prelude.{◌≡◌, ◌≤◌, length, take};
ghost use Rattle.oss_base.specs.Limits.{most_bytes};
ghost use Rattle.oss_base.specs.Places.{place_after};

/// A place in a text: a line, counted from 1 by the line feeds before it, and a column, counted from
/// 1 in bytes.
#[derive(Clone, Copy, Debug, PartialEq, Eq)]
pub struct Place {
    pub line: u32,
    pub column: u32,
}

/// The bytes of a text from offset `start` up to, and without, offset `end`.
#[derive(Clone, Copy, Debug, PartialEq, Eq)]
pub struct Span {
    pub start: u32,
    pub end: u32,
}

/// The place of the byte at `offset`, or of the end of the text where `offset` is its length.
pub fn place_of(bytes: &[u8], offset: usize) -> Place
    requires inside { offset ≤ length bytes.now }
    requires short { length bytes.now ≤ most_bytes }
    ensures { result ≡ place_after (take offset bytes.now) }
{
    let mut line = 1;
    let mut column = 1;
    for byte in &bytes[..offset] {
        if *byte == b'\n' {
            line += 1;
            column = 1;
        } else {
            column += 1;
        }
    }
    Place { line, column }
}
