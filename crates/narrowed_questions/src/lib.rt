//! The questions of levels over all free ports: what is known of a question of nodes, over the ports that occur, is
//! known of the question of formulas that it stands for. The main function is the law `narrowed_questions_are_known`.
//! May touch nothing.
#![tactic(auto)]

ghost use Rattle.narrowed_questions.specs.NarrowedQuestions.{EntailmentsAreNarrowed, AssumptionsAreNarrowed};
ghost use Rattle.narrowed_questions.specs.NarrowedQuestions.{DropsAreNarrowed, NarrowedQuestionsAreKnown};
ghost use Rattle.narrowed_questions.specs.StateQuestions.{OneStateBreaks, OneStateIsFound};

/// Each question of nodes of a level is the question of formulas that it stands for, over the ports that occur: of the
/// entailment, of each listed assumption, and of the entailment without some listed contracts.
pub fn questions_are_narrowed()
    ensures entailments { EntailmentsAreNarrowed }
    ensures assumptions { AssumptionsAreNarrowed }
    ensures drops { DropsAreNarrowed }
{
    core_ltl::core_forms_keep_truth();
    first_lasso::read_ports_decide();
}

/// What is known of a question of nodes over the ports of a level is known of the question of formulas over all free
/// ports: lassos that break it, the first one, that there is none up to k states, and whether a trace has it.
pub fn narrowed_questions_are_known()
    ensures { NarrowedQuestionsAreKnown }
{
    port_types::values_by_kind();
}

/// A question of state formulas is broken by a trace exactly where it is broken by a lasso of one state, which a search
/// up to any number of states finds.
pub fn one_state_is_enough()
    ensures breaks { OneStateBreaks }
    ensures found { OneStateIsFound }
{}
