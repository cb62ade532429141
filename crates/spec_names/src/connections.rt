//! The names in the expressions of connections, with the faults of these. Main function: `note_sources`. Whether a
//! refinement sees an enumerator is found once for each name. It allocates lists of what it is given.

ghost use Rattle.std.specs.Prelude.{◌≡◌, ◌++◌, OnOk, IfOk, map, flat_map};
ghost use Rattle.spec_names.specs.NamesFaults.{lacking, use_start};
ghost use Rattle.spec_names.specs.Enumerators.{Indexes, KnowsVisible};
ghost use Rattle.spec_names.specs.Refinements.{names_around, sees_in, is_read_by, uses_of_source, KnowsSeen};
ghost use Rattle.spec_names.specs.Noting.{noted};
ghost use Rattle.spec_names.specs.Uses.{use_at, word_of_use};
ghost use Rattle.spec_names.specs.Words.{word_at};

use crate::again::table_of;
use crate::enumerators::EnumeratorIndex;
use crate::noting::note_unless;
use crate::refinements::Surroundings;
use crate::table::PlaceTable;
use crate::uses::{NameUse, put_uses};
use crate::visible::{Visible, places_of};
use oss_base::{FaultKind, FirstSite};
use oss_syntax::{RefinementItem, Word};
use port_types::NoMemory;
use std::alloc::Global;

/// Puts the names that the expression of a connection uses at the end.
fn put_source_uses<'t>(
    uses: &mut Vec<NameUse<'t>>,
    item: &'t RefinementItem,
) -> Result<(), NoMemory>
    ensures { OnOk result (map use_at uses.new.items ≡ map use_at uses.old.items ++ uses_of_source item.now) }
{
    match item {
        RefinementItem::Connection { source, .. } => put_uses(uses, source),
        RefinementItem::Sub { .. } => Ok(()),
        RefinementItem::Contract { .. } => Ok(()),
    }
}

fn uses_of<'t>(alloc: Global, items: &'t [RefinementItem]) -> Result<Vec<NameUse<'t>>, NoMemory>
    ensures { IfOk result (λ uses. map use_at uses.items ≡ flat_map uses_of_source items.now) }
{
    let mut uses = Vec::new(alloc);
    for item in items {
        put_source_uses(&mut uses, item)?;
    }
    Ok(uses)
}

/// The first words of uses.
fn use_words<'t>(alloc: Global, uses: &[NameUse<'t>]) -> Result<Vec<&'t Word>, NoMemory>
    ensures { IfOk result (λ words. map word_at words.items ≡ map word_of_use uses.now) }
{
    let mut words = Vec::new(alloc);
    for name in uses {
        words.push(name.word())?;
    }
    Ok(words)
}

/// Whether the refinement sees an enumerator of the name of this word. `seen` says so of the first words of a list,
/// of which the table tells the places.
fn is_seen(visible: Visible<'_>, table: &PlaceTable, seen: &[bool], word: &Word) -> bool
    requires visible { KnowsVisible (names_around visible.surroundings) visible.index.now visible.places.now }
    requires seen { KnowsSeen (names_around visible.surroundings) table.now seen.now word.now }
    ensures { result ≡ sees_in (names_around visible.entry.surroundings) word.now.text }
{
    if let Some(place) = table.find(word.text.as_str()) {
        if let Some(known) = seen.get(place as usize) {
            return *known;
        }
    }
    visible.has(word.text.as_str())
}

/// Notes each of these uses of names that means nothing.
fn note_unread(
    alloc: Global,
    visible: Visible<'_>,
    uses: &[NameUse<'_>],
    first: &mut FirstSite,
) -> Result<(), NoMemory>
    requires { KnowsVisible (names_around visible.surroundings) visible.index.now visible.places.now }
    ensures { OnOk result (first.new ≡ noted (lacking FaultKind.F13
        (is_read_by (names_around visible.entry.surroundings)) use_start (map use_at uses.now)) first.old) }
{
    let words = use_words(alloc, uses)?;
    let table = table_of(alloc, words.as_slice())?;
    let mut seen = Vec::new(alloc);
    for name in uses {
        let word = name.word();
        let is_seen = is_seen(visible, &table, seen.as_slice(), word);
        seen.push(is_seen)?;
        let is_read = visible.surroundings.is_read(*name, is_seen);
        note_unless(first, is_read, FaultKind::F13, word.span.start);
    }
    Ok(())
}

/// Notes each name in an expression of a connection that means nothing.
pub(crate) fn note_sources(
    alloc: Global,
    surroundings: Surroundings<'_>,
    index: &EnumeratorIndex,
    items: &[RefinementItem],
    first: &mut FirstSite,
) -> Result<(), NoMemory>
    requires { Indexes (names_around surroundings).interfaces index.now }
    ensures { OnOk result (first.new ≡ noted (lacking FaultKind.F13 (is_read_by (names_around surroundings.entry))
        use_start (flat_map uses_of_source items.now)) first.old) }
{
    let uses = uses_of(alloc, items)?;
    let places = places_of(alloc, surroundings.subs.components.as_slice())?;
    let visible = Visible {
        surroundings,
        index,
        places: &places,
    };
    note_unread(alloc, visible, uses.as_slice(), first)
}
