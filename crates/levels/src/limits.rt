//! What a level may have at most: `excess` tells which of value bits and guards there are too many of. It touches
//! nothing.

ghost use Rattle.std.specs.Prelude.{◌≡◌, ◌+◌, ◌*◌, ◌≤◌, length, min};
ghost use Rattle.std.specs.List.{sum_by};
ghost use Rattle.oss_base.specs.Limits.{most_closure_members, most_value_bits};
ghost use Rattle.port_types.specs.Types.{range_size};
ghost use Rattle.state_coding.specs.Codes.{bit_count, type_bits as bits_of_type};
ghost use Rattle.levels.specs.LevelFaults.{combinations, guard_count as guards_of};
ghost use Rattle.levels.specs.Steps.{excess_of};

use crate::level::Level;
use oss_base::FaultKind;
use port_types::PortType;

/// Value bits are counted up to one more than a level may have.
const TOO_MANY_BITS: u32 = 257;

/// A level has at most so many guards.
const MOST_GUARDS: u64 = 4_000_000;

/// The number of bits for so many values.
fn bits_for(count: u64) -> u32
    ensures { result ≡ bit_count count }
{
    match u32::try_from(count.saturating_sub(1)) {
        Ok(last) => 32 - last.leading_zeros(),
        Err(_) => 32,
    }
}

/// The number of whole numbers from `lo` to `hi`.
pub(crate) fn count_of_range(lo: i32, hi: i32) -> u64
    ensures { result ≡ range_size lo hi }
{
    if lo <= hi {
        (i64::from(hi) - i64::from(lo)) as u64 + 1
    } else {
        0
    }
}

/// The number of bits of a type's codes.
fn type_bits(kind: &PortType) -> u32
    ensures bits { result ≡ bits_of_type kind.now }
    ensures few { result ≤ 32 }
{
    match kind {
        PortType::Bool => 1,
        PortType::Range { lo, hi } => bits_for(count_of_range(*lo, *hi)),
        PortType::Enum(names) => bits_for(names.len() as u64),
    }
}

/// The number of bits of these types together, counted up to 257.
fn bits_together(kinds: &[PortType]) -> u32
    ensures { result ≡ min (sum_by bits_of_type kinds.now) (most_value_bits + 1) }
{
    let mut bits = 0;
    for kind in kinds {
        bits = (bits + type_bits(kind)).min(TOO_MANY_BITS);
    }
    bits
}

/// How many sets of one, two and three of some members there are.
#[derive(Clone, Copy, Debug)]
struct SmallSets {
    singles: u64,
    pairs: u64,
    triples: u64,
}

fn small_sets(members: usize) -> SmallSets
    requires { members ≤ most_closure_members }
    ensures singles { result.singles ≡ combinations members 1 }
    ensures pairs { result.pairs ≡ combinations members 2 }
    ensures triples { result.triples ≡ combinations members 3 }
    ensures few { result.triples ≤ 1048576 * members }
    ensures fewer { result.pairs ≤ 1024 * members }
    ensures fewest { result.singles ≤ members }
{
    let mut singles = 0;
    let mut pairs = 0;
    let mut triples = 0;
    for _ in 0..members {
        triples += pairs;
        pairs += singles;
        singles += 1;
    }
    SmallSets {
        singles,
        pairs,
        triples,
    }
}

/// How many guards of at most so many members there are over some members.
fn guard_count(members: usize, width: u8) -> u64
    requires few { members ≤ most_closure_members }
    requires least { 1 ≤ width }
    requires most { width ≤ 3 }
    ensures { result ≡ guards_of members width }
{
    let sets = small_sets(members);
    match width {
        1 => 1 + 2 * sets.singles,
        2 => 1 + 2 * sets.singles + 4 * sets.pairs,
        _ => 1 + 2 * sets.singles + 4 * sets.pairs + 8 * sets.triples,
    }
}

/// The kind of fault of a level that has too many value bits or too many guards.
pub(crate) fn excess(level: &Level, width: u8) -> Option<FaultKind>
    requires few { length level.now.closure.nodes ≤ most_closure_members }
    requires least { 1 ≤ width }
    requires most { width ≤ 3 }
    ensures { result ≡ excess_of width level.now }
{
    if bits_together(level.ports.as_slice()) == TOO_MANY_BITS {
        Some(FaultKind::F29)
    } else if guard_count(level.closure.nodes().len(), width) > MOST_GUARDS {
        Some(FaultKind::F30)
    } else {
        None
    }
}
