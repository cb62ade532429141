//! What is always so of specifications: laws on functions without code that may be called for their clauses. They
//! touch nothing.

ghost use Rattle.spec_model.specs.FreeRows.{FreeRowsAreFree};
ghost use Rattle.spec_model.specs.Laws.{ContractsAreDistinct, WiresAreDistinct};

/// The free ports of a component are those that the numbers of ports and the targets of its connections tell. (A law
/// without code: who calls this function may rely on it.)
pub fn free_rows_are_free()
    ensures { FreeRowsAreFree }
{}

/// Two contracts, or two connections, of one meaning are equal. (A law without code.)
pub fn meanings_are_distinct()
    ensures contracts { ContractsAreDistinct }
    ensures wires { WiresAreDistinct }
{}
