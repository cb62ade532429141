//! What is always so of texts that stand for clauses: a law on a function without code that may be called for its
//! clause. It touches nothing.

ghost use Rattle.dimacs.specs.Laws.{TextsStandForOneList};

/// A text stands for at most one list of clauses. (A law without code.)
pub fn texts_stand_for_one_list()
    ensures { TextsStandForOneList }
{}
