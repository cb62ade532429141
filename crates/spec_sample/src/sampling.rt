//! The sample text. Main function: `sample`. Allocates the text, and touches nothing else.

ghost use Rattle.std.specs.Prelude.{◌≡◌, ◌++◌, ◌≤◌, OnOk, IfOk, codes};
ghost use Rattle.std.specs.List.{flat_map, range_with_len};
ghost use Rattle.spec_sample.specs.SampleTexts.{largest_sample, stage_interface, chain_component, sample_text};

use crate::chain::{append_chain_component, append_interface};
use port_types::{NoMemory, Text};
use std::alloc::Global;

fn append_chain(text: &mut Text, n: u16) -> Result<(), NoMemory>
    ensures { OnOk result (text.new ≡ text.old ++ flat_map (chain_component n) (range_with_len 1 n)) }
{
    for place in 0..n {
        append_chain_component(text, n, place + 1)?;
    }
    Ok(())
}

fn append_stage(text: &mut Text) -> Result<(), NoMemory>
    ensures { OnOk result (text.new ≡ text.old ++ (codes "COMPONENT Stage\n" ++ stage_interface)) }
{
    text.append(b"COMPONENT Stage\n")?;
    append_interface(text)?;
    Ok(())
}

/// The sample text of a size: a chain of `n` components, of which the first is the system, and one stage.
///
/// `n` is from 1 to 400. The answer is the bytes of the text. The only error is want of memory.
#[tactic(auto, unfolding(crate::specs::SampleTexts::sample_text))]
pub fn sample(alloc: Global, n: u16) -> Result<Text, NoMemory>
    requires least { 1 ≤ n }
    requires most { n ≤ largest_sample }
    ensures { IfOk result (λ text. text ≡ sample_text n) }
{
    let mut text = Text::new(alloc);
    append_chain(&mut text, n)?;
    append_stage(&mut text)?;
    Ok(text)
}
