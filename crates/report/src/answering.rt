//! The answers to all obligations of a specification, level by level: `answer_levels`. May touch the allocator.

ghost use Rattle.std.specs.Prelude.{◌≡◌, ℕ, ◌≤◌, ◌∷◌, ◌++◌, [], None, IfOk, OnOk};
ghost use Rattle.levels.specs.Levels.{AreLevels};
ghost use Rattle.levels.specs.LevelFaults.{first_level_fault};
ghost use Rattle.level_verdicts.specs.Verdicts.{CanBeDecided};
ghost use Rattle.report.specs.AllAnswers.{answer, answers_from, obligation_of as obligation_at, AreAnswers};

use crate::answers::{Answer, Answers};
use level_verdicts::verdicts;
use levels::LevelList;
use obligations::ObligationName;
use oss_base::ItemId;
use port_types::NoMemory;
use spec_model::Spec;
use std::alloc::Global;
use typed_ltl::Verdict;

/// Answers all obligations, the questions of each level by its lassos of at most `depth` states. The levels are those
/// of the items in their order, and within the limits.
pub fn answer_levels(
    alloc: Global,
    spec: &Spec,
    levels: &LevelList,
    depth: u8,
) -> Result<Answers, NoMemory>
    requires decidable { CanBeDecided spec.now }
    requires levels { AreLevels spec.now spec.now.items levels.now }
    requires clear { (width : ℕ) × (first_level_fault width spec.now ≡ None) }
    requires deep { 1 ≤ depth }
    requires shallow { depth ≤ 32 }
    ensures { IfOk result (AreAnswers spec.now depth) }
{
    coded_levels::clear_levels_are_small();
    let mut answers = Answers::new(alloc);
    for (place, item) in spec.items.as_slice().iter().enumerate() {
        let id = ItemId(number(place)?);
        let level = &levels.as_slice()[place];
        let verdicts = verdicts(alloc, spec, item, level, depth)?;
        push_level(&mut answers, id, verdicts.as_slice())?;
    }
    Ok(answers)
}

fn number(place: usize) -> Result<u32, NoMemory>
    ensures { IfOk result (λ number. number ≡ place) }
{
    match u32::try_from(place) {
        Ok(number) => Ok(number),
        Err(_) => Err(NoMemory),
    }
}

fn obligation_of(item: ItemId, place: usize) -> Result<ObligationName, NoMemory>
    ensures { IfOk result (λ name. name ≡ obligation_at item place) }
{
    if place == 0 {
        return Ok(ObligationName::Entails { item });
    }
    let place = number(place - 1)?;
    Ok(ObligationName::Assumes { item, place })
}

fn copied(verdict: &Verdict) -> Result<Verdict, NoMemory>
    ensures { IfOk result (λ copy. copy ≡ verdict.now) }
{
    match verdict {
        Verdict::Refuted(lasso) => Ok(Verdict::Refuted(lasso.copy()?)),
        Verdict::Proved => Ok(Verdict::Proved),
        Verdict::Undecided => Ok(Verdict::Undecided),
    }
}

fn push_answer(
    answers: &mut Answers,
    name: ObligationName,
    verdict: &Verdict,
) -> Result<(), NoMemory>
    ensures { OnOk result (answers.new ≡ answers.old ++ answer name verdict.now ∷ []) }
{
    let verdict = copied(verdict)?;
    answers.push(Answer { name, verdict })
}

fn push_level(answers: &mut Answers, item: ItemId, verdicts: &[Verdict]) -> Result<(), NoMemory>
    ensures { OnOk result (answers.new ≡ answers.old ++ answers_from item 0 verdicts.now) }
{
    for (place, verdict) in verdicts.iter().enumerate() {
        let name = obligation_of(item, place)?;
        push_answer(answers, name, verdict)?;
    }
    Ok(())
}
