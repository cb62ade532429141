//! Laws about what trees stand for, for callers that cite them. None of these functions has code.

ghost use Rattle.architecture.specs.Laws.{StandsIsUnique, TextsHaveStateSources, ResolvedIsWellFormed};
ghost use Rattle.architecture.specs.Laws.{ResolvedIsConnected, ResolvedKeepsTypes, ResolvedHasSmallNumbers};

/// A tree of a text stands for one specification alone. (A law without code: who calls this may rely on it.)
pub fn stands_is_unique()
    ensures { StandsIsUnique }
{}

/// The connections of every text of the grammar read one valuation alone. (A law without code.)
pub fn texts_have_state_sources()
    ensures { TextsHaveStateSources }
{}

/// What a tree without a fault stands for is well formed, where its connections read one valuation alone; and each
/// connection drives a port that is there, with a source of its type that reads free ports. (A law without code.)
pub fn resolved_is_well_formed()
    ensures well { ResolvedIsWellFormed }
    ensures connected { ResolvedIsConnected }
{}

/// What a text of a file stands for has small numbers; and where it has no fault of names and types, each connection
/// gives its target a value of the target's type. (A law without code.)
pub fn resolved_has_values()
    ensures small { ResolvedHasSmallNumbers }
    ensures typed { ResolvedKeepsTypes }
{
    oss_lexer::tokens_stand();
}
