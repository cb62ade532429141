//! What is always so of trees: a law on a function without code that may be called for its clause. Touches nothing.

ghost use Rattle.oss_syntax.specs.Laws.{TreesAreDistinct};

/// Two trees that stand for the same components are the same tree. (A law without code: who calls this
/// function may rely on it.)
pub fn trees_are_distinct()
    ensures { TreesAreDistinct }
{}
