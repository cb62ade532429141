//! Reads a whole file from a shelf (`read_all`). It touches the shelf, and memory for the bytes.

ghost use Rattle.std.specs.Prelude.{◌≡◌, ◌<◌, ◌≤◌, ◌↔◌, List, ℕ, length, IfOk, IfSome, IsErrOf};
ghost use Rattle.oss_io.specs.Outside.{Rose};
ghost use Rattle.oss_io.specs.declared.reading.ReadStop.TheVariants.{NoMemory as out_of_memory, Failed as call_failed};

use crate::outside::{Failed, Shelf};
use port_types::Bytes;
use std::alloc::{AllocError, Global};

/// Why a file could not be read whole.
#[derive(Clone, Copy, Debug, PartialEq, Eq)]
pub enum ReadStop {
    /// A call on the shelf failed.
    Failed,
    /// The file has more bytes than the limit.
    TooLong,
    NoMemory,
}

impl From<AllocError> for ReadStop {
    ghost from_gives = { λ _ e. e ≡ out_of_memory };

    fn from(_error: AllocError) -> ReadStop {
        ReadStop::NoMemory
    }
}

impl From<Failed> for ReadStop {
    ghost from_gives = { λ _ e. e ≡ call_failed };

    fn from(_failed: Failed) -> ReadStop {
        ReadStop::Failed
    }
}

/// How many bytes are asked for in one read.
const PIECE: usize = 4096;

/// Reads all bytes of the file of this name, at most `limit`. A read that gives fewer bytes than
/// were asked for is not taken for the end, and neither is one that failed: only a read that gives
/// none is. It asks for at most `limit + 1` bytes in all.
///
/// What is left on the shelf afterwards is open on purpose.
pub fn read_all<F: Shelf>(
    alloc: Global,
    shelf: &mut F,
    name: &str,
    limit: usize,
) -> Result<Bytes, ReadStop>
    requires limit_from { 1 ≤ limit }
    requires limit_to { limit ≤ 536870912 }
    requires admits { F.admits shelf.old name.now }

    ensures whole { IfOk result (λ bytes. IfSome (F.held shelf.old name.now) (λ held. bytes ≡ held)) }
    ensures limit { IfOk result (λ bytes. length bytes ≤ limit) }
    ensures too_long { IsErrOf result ReadStop.TooLong
        → IfSome (F.held shelf.old name.now) (λ held. limit < length held) }
    ensures failed { IsErrOf result ReadStop.Failed → Rose (F.faults shelf.old) (F.faults shelf.new) }

    ensures held { (n : List ℕ) → F.held shelf.new n ≡ F.held shelf.old n }
    ensures admits { (n : List ℕ) → F.admits shelf.old n ↔ F.admits shelf.new n }
    ensures later { F.faults shelf.old ≤ F.faults shelf.new }
{
    shelf.open(name)?;
    let mut bytes = Vec::new(alloc);
    let mut piece = [0; PIECE];
    while bytes.len() <= limit {
        let room = PIECE.min(limit + 1 - bytes.len());
        let count = shelf.read(&mut piece[..room])?;
        if count == 0 {
            return Ok(Bytes::from_vec(bytes));
        }
        bytes.extend_from_slice(&piece[..count])?;
    }
    Err(ReadStop::TooLong)
}
