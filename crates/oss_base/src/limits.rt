//! The limits of the language and of the size of a level, as constants. They touch nothing.

ghost use Rattle.std.specs.Prelude.{◌≡◌};
ghost use Rattle.oss_base.specs.Limits.{most_bytes, most_height, most_components, most_instances};
ghost use Rattle.oss_base.specs.Limits.{most_closure_members, most_level_size, most_value_bits, most_guards};

pub use port_types::{LARGEST_NUMERAL, MOST_PARTS};

/// A file has at most so many bytes.
pub const MOST_BYTES: usize = 4_194_304;

/// An expression is at most so high.
pub const MOST_HEIGHT: usize = 128;

/// A file has at most so many components.
pub const MOST_COMPONENTS: usize = 1024;

/// A system has at most so many instances of components, itself counted.
pub const MOST_INSTANCES: usize = 4096;

/// The closure of a level has at most so many members.
pub const MOST_CLOSURE_MEMBERS: usize = 1024;

/// The formulas of a level have at most this size together.
pub const MOST_LEVEL_SIZE: usize = 16_384;

/// The values of the free ports of a level have at most so many bits together.
pub const MOST_VALUE_BITS: usize = 256;

/// A level has at most so many guards.
pub const MOST_GUARDS: usize = 4_000_000;

/// A law, without code: the limits in code are those of the definitions.
pub fn limits_of_files()
    ensures bytes { MOST_BYTES ≡ most_bytes }
    ensures height { MOST_HEIGHT ≡ most_height }
    ensures components { MOST_COMPONENTS ≡ most_components }
    ensures instances { MOST_INSTANCES ≡ most_instances }
    ensures members { MOST_CLOSURE_MEMBERS ≡ most_closure_members }
    ensures size { MOST_LEVEL_SIZE ≡ most_level_size }
    ensures bits { MOST_VALUE_BITS ≡ most_value_bits }
    ensures guards { MOST_GUARDS ≡ most_guards }
{}
