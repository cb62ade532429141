//! The verdicts of a level: `verdicts`. One tableau and one solver serve all its questions. May touch the allocator.

ghost use Rattle.std.specs.Prelude.{◌≡◌, ◌≤◌, IfOk, OnOk, All, length, map};
ghost use Rattle.oss_base.specs.Limits.{most_closure_members};
ghost use Rattle.typed_ltl.specs.Formulas.{proposition_of};
ghost use Rattle.state_coding.specs.Codes.{IsCodable};
ghost use Rattle.state_coding.specs.Reads.{ReadsPorts};
ghost use Rattle.spec_model.specs.FreeTypes.{free_types};
ghost use Rattle.levels.specs.Levels.{IsLevel};
ghost use Rattle.tableau.specs.Questions.{IsQuestionOver};
ghost use Rattle.level_verdicts.specs.Verdicts.{CanBeDecided, AreVerdicts};
ghost use Rattle.level_verdicts.specs.Steps.{IsSearchOf, AreWidened, verdict_of as verdict_by, IsVerdictByNodes};

use crate::states::is_state_level;
use core_ltl::Question;
use lasso_search::shortest;
use levels::Level;
use port_types::NoMemory;
use sat_core::Solver;
use spec_model::{Item, Spec};
use sqlite_items::Items;
use std::alloc::Global;
use tableau::Tableau;
use typed_ltl::{Lasso, Verdict};

/// What the searches for the questions of one level share: its tableau, and the solver, in which each search stands
/// under variables of its own.
#[derive(Drop)]
struct LevelSearch {
    tableau: Tableau,
    solver: Solver,
}

/// A search without clauses. The closure of the level has at most 1,024 members, whose atoms read its ports.
fn search_of(alloc: Global, level: &Level) -> Result<LevelSearch, NoMemory>
    requires few { length level.now.closure.nodes ≤ most_closure_members }
    requires ports { All IsCodable level.now.ports }
    requires atoms { All (ReadsPorts level.now.ports) (map proposition_of level.now.closure.atoms) }
    ensures { IfOk result (IsSearchOf level.now) }
{
    let tableau = Tableau::new(alloc, level.closure(), level.ports())?;
    let solver = Solver::new(alloc);
    Ok(LevelSearch { tableau, solver })
}

/// The lasso over all free ports: each port that does not occur in the level has the first value of its type.
fn widened(spec: &Spec, level: &Level, found: Option<Lasso>) -> Result<Option<Lasso>, NoMemory>
    ensures { IfOk result (λ wide.
        AreWidened (free_types spec.now level.now.component) level.now.places found wide) }
{
    match found {
        Some(lasso) => Ok(Some(level.widen(spec, &lasso)?)),
        None => Ok(None),
    }
}

/// The verdict on a question, by what the search found and whether the level is one of state formulas.
fn verdict_of(found: Option<Lasso>, is_state: bool) -> Verdict
    ensures { result ≡ verdict_by found is_state }
{
    match found {
        Some(lasso) => Verdict::Refuted(lasso),
        None => {
            if is_state {
                Verdict::Proved
            } else {
                Verdict::Undecided
            }
        }
    }
}

/// The verdict on a question of the level, where it is known whether the level is one of state formulas.
fn question_verdict(
    alloc: Global,
    spec: &Spec,
    level: &Level,
    search: &mut LevelSearch,
    question: &Question,
    depth: u8,
    is_state: bool,
) -> Result<Verdict, NoMemory>
    requires search { IsSearchOf level.now search.old }
    requires question { IsQuestionOver search.old.tableau question.now }
    ensures search { OnOk result (IsSearchOf level.now search.new) }
    ensures verdict { IfOk result (IsVerdictByNodes spec.now level.now question.now depth is_state) }
{
    let found = shortest(alloc, &search.tableau, question, depth, &mut search.solver)?;
    let wide = widened(spec, level, found)?;
    Ok(verdict_of(wide, is_state))
}

/// The verdicts of a level, by lassos of at most `depth` states: of its entailment, then of the assumption of each
/// listed contract in the order of the list.
pub fn verdicts(
    alloc: Global,
    spec: &Spec,
    item: &Item,
    level: &Level,
    depth: u8,
) -> Result<Items<Verdict>, NoMemory>
    requires decidable { CanBeDecided spec.now }
    requires level { IsLevel spec.now item.now level.now }
    requires few { length level.now.closure.nodes ≤ most_closure_members }
    requires deep { 1 ≤ depth }
    requires shallow { depth ≤ 32 }
    ensures verdicts { IfOk result (λ vs. AreVerdicts spec.now item.now depth vs) }
{
    // laws: no code runs
    coded_levels::levels_can_be_coded();
    coded_levels::questions_are_over_closures();
    narrowed_questions::questions_are_narrowed();
    narrowed_questions::narrowed_questions_are_known();
    let is_state = is_state_level(level);
    let mut search = search_of(alloc, level)?;
    let mut verdicts = Vec::new(alloc);
    let entails = level.entails()?;
    let entailed = question_verdict(alloc, spec, level, &mut search, &entails, depth, is_state)?;
    verdicts.push(entailed)?;
    for j in 0..level.parts.len() {
        let assumes = level.assumes(j)?;
        let assumed = question_verdict(alloc, spec, level, &mut search, &assumes, depth, is_state)?;
        verdicts.push(assumed)?;
    }
    Ok(Items::from_vec(verdicts))
}
