//! Places of names in a text, counted on from one to the next. Main function: `Cursor::to`. It touches nothing outside.

ghost use Rattle.std.specs.Prelude.{◌≡◌, ◌++◌, ◌≤◌, [], ◌∷◌, take, IfOk};
ghost use Rattle.oss_base.specs.Places.{place_after};
ghost use Rattle.architecture.specs.Assembling.{IsAt, IsNext};

use oss_base::Place;
use port_types::NoMemory;

/// An offset in a text, and its place.
#[derive(Clone, Copy)]
pub struct Cursor {
    pub offset: usize,
    pub place: Place,
}

fn start(bytes: &[u8]) -> Cursor
    ensures at { IsAt bytes.now result }
    ensures offset { result.offset ≡ 0 }
{
    Cursor {
        offset: 0,
        place: Place { line: 1, column: 1 },
    }
}

/// The place after one more byte.
fn next(place: Place, byte: u8) -> Result<Place, NoMemory>
    ensures { IfOk result (λ next. IsNext place byte next) }
{
    if byte == b'\n' {
        let line = place.line.checked_add(1).ok_or(NoMemory)?;
        Ok(Place { line, column: 1 })
    } else {
        let column = place.column.checked_add(1).ok_or(NoMemory)?;
        Ok(Place {
            line: place.line,
            column,
        })
    }
}

/// The cursor, or the start of the text where the cursor is past the offset.
fn not_past(bytes: &[u8], cursor: Cursor, offset: usize) -> Cursor
    requires { IsAt bytes.now cursor }
    ensures at { IsAt bytes.now result }
    ensures offset { result.offset ≤ offset }
{
    if offset < cursor.offset {
        start(bytes)
    } else {
        cursor
    }
}

/// The cursor moved forward to an offset.
fn moved(bytes: &[u8], cursor: Cursor, offset: usize) -> Result<Cursor, NoMemory>
    requires at { IsAt bytes.now cursor }
    requires before { cursor.offset ≤ offset }
    ensures at { IfOk result (λ cursor. IsAt bytes.now cursor) }
    ensures offset { IfOk result (λ cursor. cursor.offset ≡ offset) }
{
    let end = offset.min(bytes.len());
    let mut place = cursor.place;
    let mut at = cursor.offset;
    while at < end {
        place = next(place, bytes[at])?;
        at += 1;
    }
    Ok(Cursor { offset, place })
}

impl Cursor {
    /// The cursor at the start of the text.
    pub fn new(bytes: &[u8]) -> Cursor
        ensures { IsAt bytes.now result }
    {
        start(bytes)
    }

    /// The cursor at an offset: moved forward, or from the start of the text where it is past the
    /// offset.
    pub fn to(self, bytes: &[u8], offset: usize) -> Result<Cursor, NoMemory>
        requires { IsAt bytes.now self }
        ensures at { IfOk result (λ cursor. IsAt bytes.now cursor) }
        ensures place { IfOk result (λ cursor. cursor.place ≡ place_after (take offset bytes.now)) }
    {
        moved(bytes, not_past(bytes, self, offset), offset)
    }
}
