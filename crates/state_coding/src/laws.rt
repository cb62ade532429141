//! Laws on states and codes. No code runs in them, and nothing is touched.

ghost use Rattle.state_coding.specs.Laws.{StatesStay, BitCountIsLeast, CodesArePlaces, ValuesHaveOnePlace};
ghost use Rattle.state_coding.specs.Laws.{AtomsAreRight};

/// A state stays one where variables and clauses are added.
pub fn states_stay()
    ensures { StatesStay }
{}

/// Codes are in value order: a code is the place of its value in the list of its type's values.
pub fn codes_are_in_value_order()
    ensures places { CodesArePlaces }
    ensures distinct { ValuesHaveOnePlace }
    ensures least { BitCountIsLeast }
{}

/// The literal of an atom's coding is the atom's truth value, wherever its clauses hold.
pub fn atoms_are_right()
    ensures { AtomsAreRight }
{
    cnf::gates_are_right();
}
