//! The text of judgements. Main function: `render_judgements`. It touches memory alone.

ghost use Rattle.std.specs.Prelude.{◌≡◌, ◌++◌, IfOk, OnOk};
ghost use Rattle.std.specs.List.{flat_map};
ghost use Rattle.report.specs.JudgementTexts.{judged_name, judgement_line as line_of, judgements_text};
ghost use Rattle.report.specs.JudgementTexts.{judged_truth};

use obligations::{component_name, contract_name, sub_name};
use oss_base::{ComponentId, ContractId, SubId};
use port_types::{NoMemory, Text};
use replay::{Judgement, Judgements};
use spec_model::Spec;
use std::alloc::Global;

/// The text of judgements: a line for each, `C.c assume V guarantee V` for a contract of the component itself and
/// `s.d assume V guarantee V` for one of a subcomponent.
pub fn render_judgements(
    alloc: Global,
    spec: &Spec,
    judgements: &Judgements,
) -> Result<Text, NoMemory>
    ensures { IfOk result (λ text. text ≡ judgements_text spec.now judgements.now) }
{
    let mut text = Text::new(alloc);
    append_judgements(&mut text, spec, judgements.as_slice())?;
    Ok(text)
}

fn append_judgements(text: &mut Text, spec: &Spec, judgements: &[Judgement]) -> Result<(), NoMemory>
    ensures { OnOk result (text.new ≡ text.old ++ flat_map (line_of spec.now) judgements.now) }
{
    for judgement in judgements {
        append_judgement(text, spec, *judgement)?;
    }
    Ok(())
}

fn append_judgement(text: &mut Text, spec: &Spec, judgement: Judgement) -> Result<(), NoMemory>
    ensures { OnOk result (text.new ≡ text.old ++ line_of spec.now judgement) }
{
    append_judged(
        text,
        spec,
        judgement.component,
        judgement.sub,
        judgement.contract,
    )?;
    text.append(b" assume ")?;
    text.append(truth_word(judgement.assume).as_bytes())?;
    text.append(b" guarantee ")?;
    text.append(truth_word(judgement.guarantee).as_bytes())?;
    text.append(b"\n")
}

fn truth_word(truth: bool) -> &'static str
    ensures { result.now ≡ judged_truth truth }
{
    match truth {
        true => "true",
        false => "false",
    }
}

/// Puts the name of a contract at the end of a text.
fn append_judged(
    text: &mut Text,
    spec: &Spec,
    c: ComponentId,
    sub: Option<SubId>,
    contract: ContractId,
) -> Result<(), NoMemory>
    ensures { OnOk result (text.new ≡ text.old ++ judged_name spec.now c sub contract) }
{
    match sub {
        None => {
            text.append(component_name(spec, c).as_bytes())?;
            text.append(b".")?;
            text.append(contract_name(spec, c, contract).as_bytes())
        }
        Some(sub) => {
            text.append(sub_name(spec, c, sub).as_bytes())?;
            text.append(b".")?;
            match spec.sub_component(c, sub) {
                Some(component) => text.append(contract_name(spec, component, contract).as_bytes()),
                None => Ok(()),
            }
        }
    }
}
