//! Places in lists as numbers of 32 bits. It touches nothing.

ghost use Rattle.std.specs.Prelude.{◌≡◌, IfOk};

use port_types::NoMemory;

/// A place as a number of 32 bits. (No list of a text of at most 4 GiB has a greater place.)
pub(crate) fn number(place: usize) -> Result<u32, NoMemory>
    ensures { IfOk result (λ number. number ≡ place) }
{
    match u32::try_from(place) {
        Ok(number) => Ok(number),
        Err(_) => Err(NoMemory),
    }
}
