//! Values as they are printed. Main function: `read_value`. Only the copy of a name takes memory.

ghost use Rattle.std.specs.Prelude.{◌≡◌, ◌≤ℤ◌, ◌↔◌, IsTrue, IfOk, IfSome, IfNone, Contains};
ghost use Rattle.port_types.specs.declared.types.Value.{Value as Given};
ghost use Rattle.replay.specs.Reading.{IsValueText};

use crate::numbers::read_number;
use port_types::{Name, NoMemory, PortType, Value};

/// The truth value that is printed as this text.
fn read_truth(text: &[u8]) -> Option<Value>
    ensures some { IfSome result (λ value. IsValueText PortType.Bool text.now value) }
    ensures none { IfNone result ((value : Given) → IsValueText PortType.Bool text.now value → ⊥) }
{
    if text == b"true".as_slice() {
        Some(Value::Bool(true))
    } else if text == b"false".as_slice() {
        Some(Value::Bool(false))
    } else {
        None
    }
}

fn lies_between(lo: i32, hi: i32, number: i64) -> bool
    ensures { IsTrue result ↔ (lo ≤ℤ number) × (number ≤ℤ hi) }
{
    i64::from(lo) <= number && number <= i64::from(hi)
}

/// The whole number between these ends that is printed as this text.
fn read_whole(lo: i32, hi: i32, text: &[u8]) -> Option<Value>
    ensures some { IfSome result (λ value. IsValueText (PortType.Range lo hi) text.now value) }
    ensures none { IfNone result ((value : Given) → IsValueText (PortType.Range lo hi) text.now value → ⊥) }
{
    match read_number(text) {
        Some(number) => {
            if lies_between(lo, hi, number) {
                Some(Value::Int(number))
            } else {
                None
            }
        }
        None => None,
    }
}

/// The name that is this text.
fn find_name<'a>(names: &'a [Name], text: &[u8]) -> Option<&'a Name>
    ensures some { IfSome result (λ name. name.now ≡ text.now) }
    ensures member { IfSome result (λ name. Contains names.now name.now) }
    ensures none { IfNone result (Contains names.now text.now → ⊥) }
{
    names.iter().find(|name| name.as_str().as_bytes() == text)
}

/// The name of these that is printed as this text.
fn read_name(names: &[Name], text: &[u8]) -> Result<Option<Value>, NoMemory>
    ensures some { IfOk result (λ r. IfSome r (λ value. IsValueText (PortType.Enum names.now) text.now value)) }
    ensures none { IfOk result (λ r. IfNone r ((value : Given)
        → IsValueText (PortType.Enum names.now) text.now value → ⊥)) }
{
    match find_name(names, text) {
        Some(name) => Ok(Some(Value::Name(name.copy()?))),
        None => Ok(None),
    }
}

/// The value of the type that is printed as this text.
pub fn read_value(kind: &PortType, text: &[u8]) -> Result<Option<Value>, NoMemory>
    ensures some { IfOk result (λ r. IfSome r (λ value. IsValueText kind.now text.now value)) }
    ensures none { IfOk result (λ r. IfNone r ((value : Given) → IsValueText kind.now text.now value → ⊥)) }
{
    match kind {
        PortType::Bool => Ok(read_truth(text)),
        PortType::Range { lo, hi } => Ok(read_whole(*lo, *hi, text)),
        PortType::Enum(names) => read_name(names.as_slice(), text),
    }
}
