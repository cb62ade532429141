//! Laws of first lassos, unused ports and state questions, for callers that cite them. None of these functions has
//! code.

ghost use Rattle.first_lasso.specs.Laws.{WordsAreOver, RanksArePlaces, PlacesAreRanks};
ghost use Rattle.first_lasso.specs.Laws.{FirstLassosAreUnique, FirstLassosExist};
ghost use Rattle.first_lasso.specs.Laws.{ReadPortsDecide, RenamingKeepsTruth};
ghost use Rattle.first_lasso.specs.Laws.{WideningKeepsTruth, FirstLassosWiden, NoneUpToIsSame, TracesWiden};
ghost use Rattle.first_lasso.specs.Laws.{StateFormulasAreDecided, OnePositionIsEnough, OnePositionIsFound};

/// The word of a lasso over ports is a trace over them.
pub fn words_are_over()
    ensures { WordsAreOver }
{}

/// The rank of a value is its place among the values of its type.
pub fn ranks_are_places()
    ensures places { RanksArePlaces }
    ensures ranks { PlacesAreRanks }
{
    port_types::values_by_kind();
    port_types::each_value_once();
}

/// There is at most one first lasso with a property, and there is one where some lasso of at most so many states has
/// it.
pub fn first_lassos()
    ensures unique { FirstLassosAreUnique }
    ensures exist { FirstLassosExist }
{}

/// The truth of a formula is decided by the ports that it reads, and renaming its ports keeps it.
pub fn read_ports_decide()
    ensures values { ReadPortsDecide }
    ensures renaming { RenamingKeepsTruth }
{}

/// Ports that a property does not read change no verdict, and have the first value of their type in the first lasso.
pub fn unused_ports_change_nothing()
    ensures lassos { WideningKeepsTruth }
    ensures first { FirstLassosWiden }
    ensures none { NoneUpToIsSame }
    ensures traces { TracesWiden }
{
    port_types::values_by_kind();
    read_ports_decide();
}

/// A property that is decided at position 0 has a trace exactly where it has a lasso of one state.
pub fn one_position_is_enough()
    ensures formulas { StateFormulasAreDecided }
    ensures exact { OnePositionIsEnough }
    ensures found { OnePositionIsFound }
{}
