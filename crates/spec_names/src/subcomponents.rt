//! The names of a refinement, with all their faults noted: a table of its subcomponents with their components. Main
//! function: `refinement_tables`. It allocates that table.

ghost use Rattle.std.specs.Prelude.{◌≡◌, OnOk, IfOk, map};
ghost use Rattle.spec_names.specs.NamesFaults.{again, same_name, start_of};
ghost use Rattle.spec_names.specs.Noting.{noted};
ghost use Rattle.spec_names.specs.Enumerators.{Indexes};
ghost use Rattle.spec_names.specs.Refinements.{names_around, item_faults, AreTablesOf, AreNoted};
ghost use Rattle.spec_names.specs.Words.{word_at};

use crate::again::{note_again, table_of};
use crate::connections::note_sources;
use crate::enumerators::EnumeratorIndex;
use crate::interfaces::InterfaceTables;
use crate::pairs::note_pairs_again;
use crate::refinements::{RefinementTables, Surroundings, note_parts, sub_components};
use crate::table::PlaceTable;
use crate::words::{RefinementWord, refinement_words, sub_target_words};
use oss_base::{FaultKind, FirstSite};
use oss_syntax::{RefinementItem, Word};
use port_types::NoMemory;
use std::alloc::Global;

/// Notes each word that stood before, with a table of its own.
fn note_words_again(
    alloc: Global,
    kind: FaultKind,
    words: &[&Word],
    first: &mut FirstSite,
) -> Result<(), NoMemory>
    ensures { OnOk result (first.new ≡ noted (again kind same_name start_of (map word_at words.now)) first.old) }
{
    let table = table_of(alloc, words)?;
    note_again(kind, &table, words, first);
    Ok(())
}

/// Notes the faults of the names of items, where the subcomponents are known.
fn note_items(
    alloc: Global,
    surroundings: Surroundings<'_>,
    index: &EnumeratorIndex,
    items: &[RefinementItem],
    first: &mut FirstSite,
) -> Result<(), NoMemory>
    requires { Indexes (names_around surroundings).interfaces index.now }
    ensures { OnOk result (first.new ≡ noted (item_faults (names_around surroundings.entry) items.now) first.old) }
{
    note_parts(alloc, surroundings, items, first)?;
    let own_targets = refinement_words(alloc, items, RefinementWord::OwnTarget)?;
    note_words_again(alloc, FaultKind::F15, own_targets.as_slice(), first)?;
    let sub_targets = sub_target_words(alloc, items)?;
    note_pairs_again(alloc, FaultKind::F15, sub_targets.as_slice(), first)?;
    let refined = refinement_words(alloc, items, RefinementWord::Refined)?;
    note_words_again(alloc, FaultKind::F20, refined.as_slice(), first)?;
    note_sources(alloc, surroundings, index, items, first)?;
    Ok(())
}

/// The names of a refinement, with their faults noted, among components of these names and interfaces, whose
/// enumerators are indexed.
pub(crate) fn refinement_tables(
    alloc: Global,
    components: &PlaceTable,
    interfaces: &[InterfaceTables],
    own: &InterfaceTables,
    index: &EnumeratorIndex,
    items: &[RefinementItem],
    first: &mut FirstSite,
) -> Result<RefinementTables, NoMemory>
    requires { Indexes interfaces.now index.now }
    ensures tables { IfOk result (λ tables. AreTablesOf components.now items.now tables) }
    ensures noted { IfOk result (λ tables. AreNoted (record
        { components = components.now; own = own.now; subs = tables; interfaces = interfaces.now }) items.now
        first.old first.new) }
{
    let words = refinement_words(alloc, items, RefinementWord::Sub)?;
    let subs = table_of(alloc, words.as_slice())?;
    note_again(FaultKind::F12, &subs, words.as_slice(), first);
    let places = sub_components(alloc, components, items)?;
    let tables = RefinementTables {
        subs,
        components: places,
    };
    let surroundings = Surroundings {
        components,
        own,
        subs: &tables,
        interfaces,
    };
    note_items(alloc, surroundings, index, items, first)?;
    Ok(tables)
}
