//! Lassos as they are printed. Main function: `write_lasso`. It touches memory alone.

ghost use Rattle.std.specs.Prelude.{◌≡◌, ◌++◌, OnOk, IfOk, codes, decimal};
ghost use Rattle.std.specs.List.{flat_map, zip};
ghost use Rattle.replay.specs.LassoBlocks.{value_text, port_value_text, state_line, lasso_block};

use itoa::Buffer;
use port_types::{Name, Names, NoMemory, Text, Value};
use std::alloc::Global;
use typed_ltl::{Lasso, Valuation};

/// Puts a number at the end of a text.
fn append_number(text: &mut Text, number: usize) -> Result<(), NoMemory>
    ensures { OnOk result (text.new ≡ text.old ++ decimal number) }
{
    let mut buffer = Buffer::new();
    text.append(buffer.format(number).as_bytes())
}

fn append_value(text: &mut Text, value: &Value) -> Result<(), NoMemory>
    ensures { OnOk result (text.new ≡ text.old ++ value_text value.now) }
{
    match value {
        Value::Bool(true) => text.append(b"true"),
        Value::Bool(false) => text.append(b"false"),
        Value::Int(number) => {
            let mut buffer = Buffer::new();
            text.append(buffer.format(*number).as_bytes())
        }
        Value::Name(name) => text.append(name.as_str().as_bytes()),
    }
}

fn append_port_value(text: &mut Text, port: &Name, value: &Value) -> Result<(), NoMemory>
    ensures { OnOk result (text.new ≡ text.old ++ port_value_text (port.now, value.now)) }
{
    text.append(b" ")?;
    text.append(port.as_str().as_bytes())?;
    text.append(b"=")?;
    append_value(text, value)
}

fn append_values(text: &mut Text, ports: &[Name], values: &[Value]) -> Result<(), NoMemory>
    ensures { OnOk result (text.new ≡ text.old ++ flat_map port_value_text (zip ports.now values.now)) }
{
    for i in 0..ports.len().min(values.len()) {
        append_port_value(text, &ports[i], &values[i])?;
    }
    Ok(())
}

fn append_state(text: &mut Text, ports: &[Name], state: &Valuation) -> Result<(), NoMemory>
    ensures { OnOk result (text.new ≡ text.old ++ state_line ports.now state.now) }
{
    text.append(b"state")?;
    append_values(text, ports, state.as_slice())?;
    text.append(b"\n")
}

fn append_states(text: &mut Text, ports: &[Name], states: &[Valuation]) -> Result<(), NoMemory>
    ensures { OnOk result (text.new ≡ text.old ++ flat_map (state_line ports.now) states.now) }
{
    for state in states {
        append_state(text, ports, state)?;
    }
    Ok(())
}

/// The block of a lasso. The states give the ports values in this order.
pub fn write_lasso(
    alloc: Global,
    component: &Name,
    ports: &Names,
    lasso: &Lasso,
) -> Result<Text, NoMemory>
    ensures { IfOk result (λ text. text ≡ lasso_block component.now ports.now lasso.now) }
{
    let mut text = Text::new(alloc);
    text.append(b"lasso ")?;
    text.append(component.as_str().as_bytes())?;
    text.append(b" ")?;
    append_number(&mut text, lasso.states.len())?;
    text.append(b" ")?;
    append_number(&mut text, lasso.loop_at)?;
    text.append(b"\n")?;
    append_states(&mut text, ports.as_slice(), lasso.states.as_slice())?;
    text.append(b"end\n")?;
    Ok(text)
}
