//! The questions of a level: `Level::entails`, `Level::assumes`, `Level::dropping`. May touch the allocator.

ghost use Rattle.std.specs.Prelude.{◌≡◌, ℕ, ◌<◌, ◌++◌, ◌∷◌, [], Some, cond, IfOk, OnOk, map, filter, length, slice_get};
ghost use Rattle.port_types.specs.Sets.{has_place};
ghost use Rattle.typed_ltl.specs.Formulas.{Ltl};
ghost use Rattle.spec_model.specs.declared.spec.Spec.{Spec};
ghost use Rattle.spec_model.specs.declared.item.Item.{Item};
ghost use Rattle.levels.specs.Levels.{IsLevel, level_meaning};
ghost use Rattle.levels.specs.LevelQuestions.{Asks, entailment, met_assumption, entailment_without, outside_set};
ghost use Rattle.levels.specs.Steps.{normal_form_node as form_node, has_other_sub, broken_nodes};

use crate::level::{Level, PartNodes};
use core_ltl::{NodeId, Question, SignedNode};
use oss_base::SubId;
use port_types::{NoMemory, Set24};

fn put(question: &mut Question, node: NodeId, positive: bool) -> Result<(), NoMemory>
    ensures { OnOk result (question.new ≡ question.old ++ record { node = node; positive = positive } ∷ []) }
{
    question.push(SignedNode { node, positive })
}

fn put_normal_form(question: &mut Question, part: PartNodes) -> Result<(), NoMemory>
    ensures { OnOk result (question.new ≡ question.old ++ form_node part ∷ []) }
{
    put(question, part.normal_form, true)
}

fn put_normal_forms(question: &mut Question, parts: &[PartNodes]) -> Result<(), NoMemory>
    ensures { OnOk result (question.new ≡ question.old ++ map form_node parts.now) }
{
    for part in parts {
        put_normal_form(question, *part)?;
    }
    Ok(())
}

fn is_of_other_sub(sub: SubId, part: PartNodes) -> bool
    ensures { result ≡ has_other_sub sub part }
{
    part.sub.0 != sub.0
}

/// Puts the normal form of a contract of another subcomponent.
fn put_other(question: &mut Question, sub: SubId, part: PartNodes) -> Result<(), NoMemory>
    ensures { OnOk result (question.new ≡ question.old ++ cond (has_other_sub sub part) (form_node part ∷ []) []) }
{
    if is_of_other_sub(sub, part) {
        put_normal_form(question, part)
    } else {
        Ok(())
    }
}

/// Puts the normal forms of the contracts of other subcomponents.
fn put_others(question: &mut Question, sub: SubId, parts: &[PartNodes]) -> Result<(), NoMemory>
    ensures { OnOk result (question.new ≡ question.old ++ map form_node (filter (has_other_sub sub) parts.now)) }
{
    for part in parts {
        put_other(question, sub, *part)?;
    }
    Ok(())
}

fn is_in(set: Set24, place: usize) -> bool
    ensures { result ≡ has_place set place }
{
    if place < 24 {
        set.has(place as u8)
    } else {
        false
    }
}

/// Puts the normal form of a contract whose place is outside of the set.
fn put_outside(
    question: &mut Question,
    set: Set24,
    place: usize,
    part: PartNodes,
) -> Result<(), NoMemory>
    ensures { OnOk result (question.new ≡ question.old ++ cond (has_place set place) [] (form_node part ∷ [])) }
{
    if is_in(set, place) {
        Ok(())
    } else {
        put_normal_form(question, part)
    }
}

/// Puts the normal forms of the contracts whose places are outside of the set.
fn put_kept(question: &mut Question, set: Set24, parts: &[PartNodes]) -> Result<(), NoMemory>
    ensures { OnOk result (question.new ≡ question.old ++ map form_node (outside_set set 0 parts.now)) }
{
    for (place, part) in parts.iter().enumerate() {
        put_outside(question, set, place, *part)?;
    }
    Ok(())
}

impl Level {
    /// Puts that the assumption holds and the guarantee does not.
    fn put_broken(&self, question: &mut Question) -> Result<(), NoMemory>
        ensures { OnOk result (question.new ≡ question.old ++ broken_nodes self.now) }
    {
        put(question, self.assume, true)?;
        put(question, self.guarantee, false)
    }

    /// The normal forms of all listed contracts, the assumption, and not the guarantee.
    pub fn entails(&self) -> Result<Question, NoMemory>
        ensures { IfOk result (λ question. (spec : Spec) (item : Item) → IsLevel spec item self.now
            → Asks self.now question (entailment (level_meaning spec item))) }
    {
        let mut question = Question::new(self.allocator());
        put_normal_forms(&mut question, self.parts.as_slice())?;
        self.put_broken(&mut question)?;
        Ok(question)
    }

    /// The assumption, the normal forms of the listed contracts of other subcomponents, and not the assumption
    /// of listed contract `j`.
    pub fn assumes(&self, j: usize) -> Result<Question, NoMemory>
        requires { j < length self.now.parts.items }
        ensures { IfOk result (λ question. (spec : Spec) (item : Item) (part : SubId × Ltl × Ltl)
            → IsLevel spec item self.now → slice_get (level_meaning spec item).parts j ≡ Some part
            → Asks self.now question (met_assumption (level_meaning spec item) part)) }
    {
        let part = self.parts[j];
        let mut question = Question::new(self.allocator());
        put(&mut question, self.assume, true)?;
        put_others(&mut question, part.sub, self.parts.as_slice())?;
        put(&mut question, part.assume, false)?;
        Ok(question)
    }

    /// The question of `entails` without the normal forms of the listed contracts in the set.
    pub fn dropping(&self, set: Set24) -> Result<Question, NoMemory>
        ensures { IfOk result (λ question. (spec : Spec) (item : Item) → IsLevel spec item self.now
            → Asks self.now question (entailment_without set (level_meaning spec item))) }
    {
        let mut question = Question::new(self.allocator());
        put_kept(&mut question, set, self.parts.as_slice())?;
        self.put_broken(&mut question)?;
        Ok(question)
    }
}
