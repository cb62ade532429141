//! Laws on gates and on conservative extensions. No code runs in them, and nothing is touched.

ghost use Rattle.cnf.specs.Laws.{GatesAreRight, ExtensionsCompose, NothingExtends};

/// In each list of truth values in which the clauses of a gate hold, its literals have the gate's values.
pub fn gates_are_right()
    ensures { GatesAreRight }
{}

/// A conservative extension of a conservative extension is one, and adding nothing is one.
pub fn extensions_compose()
    ensures compose { ExtensionsCompose }
    ensures nothing { NothingExtends }
{}
