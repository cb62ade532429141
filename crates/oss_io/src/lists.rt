//! Lists of files and of numbers. The only call touches nothing.

ghost use Rattle.std.specs.Prelude.{◌↔◌, IsTrue, Contains};

use port_types::{Bytes, ListOf, Name};

/// Files by name, in order, each a pair of a name and bytes.
pub type Files = ListOf<(Name, Bytes)>;

/// Numbers in order.
pub type Numbers = ListOf<u64>;

/// Whether a number is listed.
pub(crate) fn is_listed(numbers: &[u64], number: u64) -> bool
    ensures { IsTrue result ↔ Contains numbers.now number }
{
    numbers.contains(&number)
}
