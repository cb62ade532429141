//! The limits of the language that types and sets of parts depend on. They touch nothing.

ghost use Rattle.std.specs.Prelude.{◌≡◌};
ghost use Rattle.port_types.specs.Limits.{largest_numeral, most_parts};

/// A numeral of a file is at most this.
pub const LARGEST_NUMERAL: u32 = 1_000_000;

/// A refined contract lists at most so many sub-contracts.
pub const MOST_PARTS: u8 = 24;

/// The limits in code are those of the definitions.
pub fn limits_of_types()
    ensures numeral { LARGEST_NUMERAL ≡ largest_numeral }
    ensures parts { MOST_PARTS ≡ most_parts }
{}
