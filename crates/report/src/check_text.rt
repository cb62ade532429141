//! The report of a check.

ghost use Rattle.std.specs.Prelude.{◌≡◌, ◌++◌, IfOk, OnOk, decimal, slice_get};
ghost use Rattle.std.specs.List.{flat_map, count_by};
ghost use Rattle.report.specs.Answers.{is_proved, is_refuted, is_undecided};
ghost use Rattle.report.specs.CheckTexts.{answer_text, check_text, obligation_component as component_by};
ghost use Rattle.report.specs.CheckTexts.{obligation_item as item_by, shown_lasso, totals_text};
ghost use Rattle.report.specs.CheckTexts.{verdict_word as word_of};

use crate::answers::{Answer, Answers};
use itoa::Buffer;
use obligations::{ObligationName, component_name};
use oss_base::{ComponentId, ItemId};
use port_types::{Name, NoMemory, Text};
use replay::{free_names, write_lasso};
use spec_model::Spec;
use sqlite_items::at;
use std::alloc::Global;
use typed_ltl::Verdict;

/// How many obligations were proved, refuted and left undecided.
#[derive(Clone, Copy, Debug, PartialEq, Eq)]
struct Totals {
    proved: usize,
    refuted: usize,
    undecided: usize,
}

/// The report of a check: a line for each answer, after a refuted one its lasso over all free ports of
/// the obligation's component, and last the line of the totals.
pub fn render_check(alloc: Global, spec: &Spec, answers: &Answers) -> Result<Text, NoMemory>
    ensures { IfOk result (λ text. text ≡ check_text spec.now answers.now) }
{
    let mut text = Text::new(alloc);
    append_answers(alloc, &mut text, spec, answers.as_slice())?;
    append_totals(&mut text, answers.as_slice())?;
    Ok(text)
}

fn append_answers(
    alloc: Global,
    text: &mut Text,
    spec: &Spec,
    answers: &[Answer],
) -> Result<(), NoMemory>
    ensures { OnOk result (text.new ≡ text.old ++ flat_map (answer_text spec.now) answers.now) }
{
    for answer in answers {
        append_answer(alloc, text, spec, answer)?;
    }
    Ok(())
}

fn append_answer(
    alloc: Global,
    text: &mut Text,
    spec: &Spec,
    answer: &Answer,
) -> Result<(), NoMemory>
    ensures { OnOk result (text.new ≡ text.old ++ answer_text spec.now answer.now) }
{
    let name = answer.name.text(alloc, spec)?;
    text.append(verdict_word(&answer.verdict).as_bytes())?;
    text.append(b" ")?;
    text.append(name.as_str().as_bytes())?;
    text.append(b"\n")?;
    append_shown(
        alloc,
        text,
        spec,
        obligation_component(spec, answer.name),
        &answer.verdict,
    )
}

fn verdict_word(verdict: &Verdict) -> &'static str
    ensures { result.now ≡ word_of verdict.now }
{
    match verdict {
        Verdict::Proved => "proved",
        Verdict::Undecided => "undecided",
        Verdict::Refuted(_) => "refuted",
    }
}

fn obligation_item(name: ObligationName) -> ItemId
    ensures { result ≡ item_by name }
{
    match name {
        ObligationName::Entails { item } => item,
        ObligationName::Assumes { item, .. } => item,
    }
}

fn obligation_component(spec: &Spec, name: ObligationName) -> ComponentId
    ensures { result ≡ component_by spec.now name }
{
    match at(spec.items.as_slice(), obligation_item(name).0 as usize) {
        Some(item) => item.component,
        None => spec.system,
    }
}

fn append_shown(
    alloc: Global,
    text: &mut Text,
    spec: &Spec,
    c: ComponentId,
    verdict: &Verdict,
) -> Result<(), NoMemory>
    ensures { OnOk result (text.new ≡ text.old ++ shown_lasso spec.now c verdict.now) }
{
    match verdict {
        Verdict::Refuted(lasso) => {
            let component = Name::new(alloc, component_name(spec, c))?;
            let ports = free_names(alloc, spec, c)?;
            let block = write_lasso(alloc, &component, &ports, lasso)?;
            text.append(block.as_slice())
        }
        Verdict::Proved => Ok(()),
        Verdict::Undecided => Ok(()),
    }
}

/// Puts a number at the end of a text.
fn append_number(text: &mut Text, number: usize) -> Result<(), NoMemory>
    ensures { OnOk result (text.new ≡ text.old ++ decimal number) }
{
    let mut buffer = Buffer::new();
    text.append(buffer.format(number).as_bytes())
}

fn count(answers: &[Answer]) -> Totals
    ensures proved { result.proved ≡ count_by is_proved answers.now }
    ensures refuted { result.refuted ≡ count_by is_refuted answers.now }
    ensures undecided { result.undecided ≡ count_by is_undecided answers.now }
{
    let mut totals = Totals {
        proved: 0,
        refuted: 0,
        undecided: 0,
    };
    for answer in answers {
        match answer.verdict {
            Verdict::Proved => totals.proved += 1,
            Verdict::Refuted(_) => totals.refuted += 1,
            Verdict::Undecided => totals.undecided += 1,
        }
    }
    totals
}

fn append_totals(text: &mut Text, answers: &[Answer]) -> Result<(), NoMemory>
    ensures { OnOk result (text.new ≡ text.old ++ totals_text answers.now) }
{
    let totals = count(answers);
    text.append(b"proved ")?;
    append_number(text, totals.proved)?;
    text.append(b" refuted ")?;
    append_number(text, totals.refuted)?;
    text.append(b" undecided ")?;
    append_number(text, totals.undecided)?;
    text.append(b"\n")
}
