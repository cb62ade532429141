//! Writes a line on what went wrong: `say`, `say_two`. They touch the sink alone.

ghost use Rattle.std.specs.Prelude.{◌++◌};
ghost use Rattle.oss_io.specs.Outside.{Says};

use crate::outside::{Failed, Sink};
use crate::writing::write_all;

/// Writes a line. That a sink for such lines fails is told nowhere.
pub fn say<E: Sink>(err: &mut E, line: &[u8])
    ensures { Says (E.taken err.old) (E.taken err.new) (E.faults err.old) (E.faults err.new) line.now }
{
    let _ = write_all(err, line);
}

/// Writes a line that stands in two parts.
pub fn say_two<E: Sink>(err: &mut E, first: &[u8], second: &[u8])
    ensures { Says (E.taken err.old) (E.taken err.new) (E.faults err.old) (E.faults err.new) (first.now ++ second.now) }
{
    match write_all(err, first) {
        Ok(()) => say(err, second),
        Err(Failed) => {}
    }
}
