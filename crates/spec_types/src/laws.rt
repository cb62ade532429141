//! What is always so of the types of a text: a law on a function without code that may be called for its clause. It
//! touches nothing.

ghost use Rattle.spec_types.specs.Laws.{TypingIsUnique};

/// The components of a text stand for one thing alone. (A law without code: who calls this function may rely on it.)
pub fn typing_is_unique()
    ensures { TypingIsUnique }
{}
