//! Types and values: membership, inclusion, the number of values and each value by its place. Only the
//! copies and `value` take memory.

ghost use Rattle.std.specs.Prelude.{◌≡◌, ◌≢◌, ◌≤◌, ◌↔◌, ◌+ℤ◌, pos, [], IsTrue, IfOk, IsNone, Contains, length};
ghost use Rattle.std.specs.Prelude.{slice_get};
ghost use Rattle.port_types.specs.Types.{values, range_size, IsOfType, IsIncluded, IsWithin, IsSignedNumeral};
ghost use Rattle.port_types.specs.Types.{IsDeclarable};

use crate::lists::{Name, Names, TryCopy, are_among, is_among};
use crate::memory::NoMemory;

/// The place of a port in a list of ports, counted from 0.
#[derive(Clone, Copy, Debug, PartialEq, Eq)]
pub struct PortId(pub u32);

/// The type of a port: a finite list of values.
///
/// The values of `Bool` are false, true; those of `Range` the whole numbers from `lo` to `hi`, none
/// where `hi` is below `lo`; those of `Enum` its names as declared.
#[derive(Debug, Drop)]
pub enum PortType {
    Bool,
    Range { lo: i32, hi: i32 },
    Enum(Names),
}

impl PortType {
    pub fn copy(&self) -> Result<PortType, NoMemory>
        ensures { IfOk result (λ copy. copy ≡ self.now) }
    {
        match self {
            PortType::Bool => Ok(PortType::Bool),
            PortType::Range { lo, hi } => Ok(PortType::Range { lo: *lo, hi: *hi }),
            PortType::Enum(names) => Ok(PortType::Enum(names.copy()?)),
        }
    }

    /// Whether a value is one of this type.
    pub fn has(&self, value: &Value) -> bool
        ensures member { IsTrue result ↔ Contains (values self.now) value.now }
        ensures by_kind { IsTrue result ↔ IsOfType self.now value.now }
    {
        self.is_type_of(value)
    }

    fn is_type_of(&self, value: &Value) -> bool
        ensures { IsTrue result ↔ IsOfType self.now value.now }
    {
        match self {
            PortType::Bool => matches!(value, Value::Bool(_)),
            PortType::Range { lo, hi } => match value {
                Value::Int(number) => i64::from(*lo) <= *number && *number <= i64::from(*hi),
                _ => false,
            },
            PortType::Enum(names) => match value {
                Value::Name(name) => is_among(name, names.as_slice()),
                _ => false,
            },
        }
    }

    /// Whether this type is of the kind of the other and within it, by the ends or the names.
    ///
    /// So each value of this type is one of the other. Where this type has a value, that is all that
    /// is asked; an empty range lies within another by its ends alone.
    pub fn within(&self, other: &PortType) -> bool
        ensures exact { IsTrue result ↔ IsWithin self.now other.now }
        ensures included { IsTrue result → IsIncluded self.now other.now }
        ensures inhabited { values self.now ≢ [] → IsIncluded self.now other.now → IsTrue result }
    {
        self.lies_in(other)
    }

    fn lies_in(&self, other: &PortType) -> bool
        ensures { IsTrue result ↔ IsWithin self.now other.now }
    {
        match self {
            PortType::Bool => matches!(other, PortType::Bool),
            PortType::Range { lo, hi } => match other {
                PortType::Range {
                    lo: least,
                    hi: most,
                } => *least <= *lo && *hi <= *most,
                _ => false,
            },
            PortType::Enum(names) => match other {
                PortType::Enum(others) => are_among(names.as_slice(), others.as_slice()),
                _ => false,
            },
        }
    }

    /// The number of values.
    pub fn count(&self) -> u32
        requires { IsDeclarable self.now }
        ensures { result ≡ length (values self.now) }
    {
        match self {
            PortType::Bool => 2,
            PortType::Range { lo, hi } => count_of_range(*lo, *hi),
            PortType::Enum(names) => names.len() as u32,
        }
    }

    /// The value at a place of the list of values, counted from 0; none from the end of the list on.
    pub fn value(&self, index: u32) -> Result<Option<Value>, NoMemory>
        requires { IsDeclarable self.now }
        ensures value { IfOk result (λ value. value ≡ slice_get (values self.now) index) }
        ensures none { IfOk result (λ value. IsNone value ↔ (length (values self.now) ≤ index)) }
    {
        if index >= self.count() {
            return Ok(None);
        }
        match self {
            PortType::Bool => Ok(Some(Value::Bool(index == 1))),
            PortType::Range { lo, hi: _ } => { Ok(Some(Value::Int(number_at(*lo, index)))) }
            PortType::Enum(names) => {
                let name = names.as_slice()[index as usize].copy()?;
                Ok(Some(Value::Name(name)))
            }
        }
    }
}

/// The number of whole numbers from `lo` to `hi`.
fn count_of_range(lo: i32, hi: i32) -> u32
    requires low { IsSignedNumeral lo }
    requires high { IsSignedNumeral hi }
    ensures { result ≡ range_size lo hi }
{
    if lo <= hi { (hi - lo) as u32 + 1 } else { 0 }
}

/// The whole number `index` places after `lo`.
fn number_at(lo: i32, index: u32) -> i64
    ensures { result ≡ lo +ℤ pos index }
{
    i64::from(lo) + i64::from(index)
}

/// A value of a port: a truth value, a whole number or a name.
#[derive(Debug, Drop)]
pub enum Value {
    Bool(bool),
    Int(i64),
    Name(Name),
}

impl Value {
    pub fn copy(&self) -> Result<Value, NoMemory>
        ensures { IfOk result (λ copy. copy ≡ self.now) }
    {
        match self {
            Value::Bool(truth) => Ok(Value::Bool(*truth)),
            Value::Int(number) => Ok(Value::Int(*number)),
            Value::Name(name) => Ok(Value::Name(name.copy()?)),
        }
    }
}

impl TryCopy for PortType {
    fn try_copy(&self) -> Result<PortType, NoMemory> {
        self.copy()
    }
}

impl TryCopy for Value {
    fn try_copy(&self) -> Result<Value, NoMemory> {
        self.copy()
    }
}
