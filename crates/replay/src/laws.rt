//! What is always so of lasso files and judgements: laws on functions without code that may be called for their
//! clauses. They touch nothing.

ghost use Rattle.replay.specs.Laws.{LassosDontBreak, BlocksReadBack, SeenTracesAreConnected};
ghost use Rattle.replay.specs.Laws.{LassosAreModerate, TextsMeanOneLasso, JudgementsAreUnique};

/// A text that means a lasso doesn't break, and one that breaks means none. (A law without code.)
pub fn lassos_dont_break()
    ensures { LassosDontBreak }
{}

/// A text means at most one lasso, where the specification has small numbers. (A law without code.)
pub fn texts_mean_one_lasso()
    ensures { TextsMeanOneLasso }
{}

/// A lasso that `write_lasso` printed is read as itself, where the names and values of its component can stand in a
/// lasso file and it is within the limits on states and bytes. (A law without code.)
pub fn blocks_read_back()
    ensures { BlocksReadBack }
{}

/// On the trace by which the contracts of a component, or of a subcomponent's, are judged, each port has the value of
/// what it stands for on the word of the lasso. (A law without code.)
pub fn seen_traces_are_connected()
    ensures { SeenTracesAreConnected }
{}

/// A lasso has one list of judgements. (A law without code.)
pub fn judgements_are_unique()
    ensures { JudgementsAreUnique }
{}

/// The condition of `judge` is met by each lasso that `read_lasso` answers, where the specification has small numbers
/// and its connections keep to the types of their targets. (A law without code.)
pub fn lassos_are_moderate()
    ensures { LassosAreModerate }
{
    spec_values::short_terms_are_moderate();
}
