//! Levels that can be coded: in a specification whose types can be coded and whose formulas read ports of their kinds,
//! the closure of each level is one of which a tableau can be made. The main function is the law `levels_can_be_coded`.
//! May touch nothing.
#![tactic(auto)]

ghost use Rattle.coded_levels.specs.Laws.{LevelsCanBeCoded, FreeTypesHaveValues, QuestionsAreOverClosures};
ghost use Rattle.coded_levels.specs.Laws.{ClearLevelsAreSmall, ClosuresAreCounted};

/// The ports of a level have types that can be coded, the atoms of its closure read these ports, and each free port has
/// a type with a value.
pub fn levels_can_be_coded()
    ensures levels { LevelsCanBeCoded }
    ensures free { FreeTypesHaveValues }
{}

/// The nodes of a question of a level are members of its closure.
pub fn questions_are_over_closures()
    ensures { QuestionsAreOverClosures }
{}

/// Where no level has a fault, each is within the limits on the members of its closure and on its size, and a closure
/// has as many members as the specification says.
pub fn clear_levels_are_small()
    ensures sizes { ClearLevelsAreSmall }
    ensures closures { ClosuresAreCounted }
{}
