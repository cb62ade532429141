//! The intervals of sums and differences. It touches nothing outside.

ghost use Rattle.std.specs.Prelude.{◌≡◌, ◌+ℤ◌, ◌-ℤ◌, IfOk};
ghost use Rattle.spec_types.specs.Typing.{sums as sums_by, differences as differences_by};

use port_types::{Interval, NoMemory};

fn sum(a: i64, b: i64) -> Result<i64, NoMemory>
    ensures { IfOk result (λ sum. sum ≡ a +ℤ b) }
{
    match a.checked_add(b) {
        Some(sum) => Ok(sum),
        None => Err(NoMemory),
    }
}

fn difference(a: i64, b: i64) -> Result<i64, NoMemory>
    ensures { IfOk result (λ difference. difference ≡ a -ℤ b) }
{
    match a.checked_sub(b) {
        Some(difference) => Ok(difference),
        None => Err(NoMemory),
    }
}

/// The sums of the values of two intervals. An expression whose sums pass 64 bits has more operands than a
/// memory holds, and is answered as want of memory.
pub(crate) fn sums(a: Interval, b: Interval) -> Result<Interval, NoMemory>
    ensures { IfOk result (λ values. values ≡ sums_by a b) }
{
    let lo = sum(a.lo, b.lo)?;
    let hi = sum(a.hi, b.hi)?;
    Ok(Interval { lo, hi })
}

/// The differences of the values of two intervals, in the same way.
pub(crate) fn differences(a: Interval, b: Interval) -> Result<Interval, NoMemory>
    ensures { IfOk result (λ values. values ≡ differences_by a b) }
{
    let lo = difference(a.lo, b.hi)?;
    let hi = difference(a.hi, b.lo)?;
    Ok(Interval { lo, hi })
}
