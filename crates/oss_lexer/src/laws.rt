//! What is always so of tokens and first lexing faults: laws, each on a function without code that may be called for
//! its clause. Touches nothing.

ghost use Rattle.oss_lexer.specs.Laws.{OneFirstFault, OnePiece, OneTokenList, TokensOrFault, TokensStand};
ghost use Rattle.oss_lexer.specs.Laws.{TokensWithoutFault};

/// No two pieces begin at the same byte.
pub fn one_piece()
    ensures { OnePiece }
{}

/// A text has at most one list of tokens.
pub fn one_token_list()
    ensures { OneTokenList }
{}

/// A text has at most one first lexing fault.
pub fn one_first_fault()
    ensures { OneFirstFault }
{}

/// A text that has tokens has no lexing fault.
pub fn tokens_without_fault()
    ensures { TokensWithoutFault }
{}

/// Each text has tokens or a first lexing fault.
pub fn tokens_or_fault()
    ensures { TokensOrFault }
{}

/// The tokens of a text stand in it, in order, each with a text of its kind.
pub fn tokens_stand()
    ensures { TokensStand }
{}
