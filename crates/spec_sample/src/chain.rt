//! Prints the components of the chain. Main functions: `append_chain_component`, `append_interface`. Allocates the
//! text, and touches nothing else.

ghost use Rattle.std.specs.Prelude.{◌≡◌, ◌++◌, OnOk, codes, decimal};
ghost use Rattle.spec_sample.specs.SampleTexts.{stage_interface, inner_refinement, last_refinement};
ghost use Rattle.spec_sample.specs.SampleTexts.{chain_refinement, system_word, chain_component};

use itoa::Buffer;
use port_types::{NoMemory, Text};

/// Puts a number at the end of a text.
fn append_number(text: &mut Text, number: u16) -> Result<(), NoMemory>
    ensures { OnOk result (text.new ≡ text.old ++ decimal number) }
{
    let mut buffer = Buffer::new();
    text.append(buffer.format(number).as_bytes())
}

/// Puts the interface that all components have at the end of a text.
#[tactic(auto, unfolding(crate::specs::SampleTexts::stage_interface))]
pub(crate) fn append_interface(text: &mut Text) -> Result<(), NoMemory>
    ensures { OnOk result (text.new ≡ text.old ++ stage_interface) }
{
    text.append(b"  INTERFACE\n    INPUT PORT req: boolean;\n    OUTPUT PORT ack: boolean;\n")?;
    text.append(
        b"    CONTRACT resp\n      assume: true;\n      guarantee: always (req implies in the future ack);\n",
    )
}

#[tactic(auto, unfolding(crate::specs::SampleTexts::inner_refinement))]
fn append_inner_refinement(text: &mut Text, next: u16) -> Result<(), NoMemory>
    ensures { OnOk result (text.new ≡ text.old ++ inner_refinement next) }
{
    text.append(b"  REFINEMENT\n    SUB h: Stage;\n    SUB t: L")?;
    append_number(text, next)?;
    text.append(b";\n    CONNECTION h.req := req;\n")?;
    text.append(b"    CONNECTION t.req := h.ack;\n    CONNECTION ack := t.ack;\n")?;
    text.append(b"    CONTRACT resp REFINEDBY h.resp, t.resp;\n")
}

#[tactic(auto, unfolding(crate::specs::SampleTexts::last_refinement))]
fn append_last_refinement(text: &mut Text) -> Result<(), NoMemory>
    ensures { OnOk result (text.new ≡ text.old ++ last_refinement) }
{
    text.append(
        b"  REFINEMENT\n    SUB h: Stage;\n    CONNECTION h.req := req;\n    CONNECTION ack := h.ack;\n",
    )?;
    text.append(b"    CONTRACT resp REFINEDBY h.resp;\n")
}

fn append_refinement(text: &mut Text, n: u16, i: u16) -> Result<(), NoMemory>
    ensures { OnOk result (text.new ≡ text.old ++ chain_refinement n i) }
{
    if i < n {
        append_inner_refinement(text, i + 1)
    } else {
        append_last_refinement(text)
    }
}

fn append_system_word(text: &mut Text, i: u16) -> Result<(), NoMemory>
    ensures { OnOk result (text.new ≡ text.old ++ system_word i) }
{
    if i == 1 {
        text.append(b" system")
    } else {
        Ok(())
    }
}

/// Puts the component with the number `i` of a chain of `n`, and an empty line, at the end of a text.
#[tactic(auto, unfolding(crate::specs::SampleTexts::chain_component))]
pub(crate) fn append_chain_component(text: &mut Text, n: u16, i: u16) -> Result<(), NoMemory>
    ensures { OnOk result (text.new ≡ text.old ++ chain_component n i) }
{
    text.append(b"COMPONENT L")?;
    append_number(text, i)?;
    append_system_word(text, i)?;
    text.append(b"\n")?;
    append_interface(text)?;
    append_refinement(text, n, i)?;
    text.append(b"\n")?;
    Ok(())
}
