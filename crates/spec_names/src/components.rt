//! The names of components and which of them is the system, with the faults of these. Main function:
//! `component_table`. It allocates a table.

ghost use Rattle.std.specs.Prelude.{◌≡◌, ◌++◌, [], ◌∷◌, IfOk, OnOk, map, filter_map, is_none, slice_get};
ghost use Rattle.std.specs.List.{list_all};
ghost use Rattle.oss_syntax.specs.declared.component.TreeComponent.{TreeComponent as Component};
ghost use Rattle.spec_names.specs.Components.{system_of, system_faults, second_system_faults};
ghost use Rattle.spec_names.specs.NamesFaults.{again, same_name, start_of};
ghost use Rattle.spec_names.specs.Noting.{noted};
ghost use Rattle.spec_names.specs.Tables.{IsPlaceTable};
ghost use Rattle.spec_names.specs.Words.{word_at};

use crate::again::{note_again, table_of};
use crate::noting::{note, note_unless};
use crate::table::PlaceTable;
use crate::words::component_words;
use oss_base::{FaultKind, FirstSite, Span};
use oss_syntax::TreeComponent;
use port_types::NoMemory;
use std::alloc::Global;

/// Whether no component is the system.
fn lack_system(components: &[TreeComponent]) -> bool
    ensures { result ≡ list_all (λ (c : Component). is_none c.system) components.now }
{
    components
        .iter()
        .all(|component| component.system.is_none())
}

/// The second word `system`.
fn second_system(components: &[TreeComponent]) -> Option<Span>
    ensures { result ≡ slice_get (filter_map system_of components.now) 1 }
{
    let mut is_there = false;
    for component in components {
        if let Some(span) = component.system {
            if is_there {
                return Some(span);
            }
            is_there = true;
        }
    }
    None
}

/// Notes the second word `system`, if there is one.
fn note_second_system(components: &[TreeComponent], first: &mut FirstSite)
    ensures { first.new ≡ noted (second_system_faults components.now) first.old }
{
    if let Some(span) = second_system(components) {
        note(first, FaultKind::F8, span.start);
    }
}

/// The table of the names of components, with the faults of these names and of the word `system` noted.
pub(crate) fn component_table(
    alloc: Global,
    end: u32,
    components: &[TreeComponent],
    first: &mut FirstSite,
) -> Result<PlaceTable, NoMemory>
    ensures table { IfOk result (λ table. IsPlaceTable (map (λ (c : Component). c.name) components.now) table) }
    ensures noted { OnOk result (first.new ≡ noted (again FaultKind.F6 same_name start_of
        (map (λ (c : Component). c.name) components.now) ++ system_faults end components.now) first.old) }
{
    let words = component_words(alloc, components)?;
    let table = table_of(alloc, &words)?;
    note_again(FaultKind::F6, &table, &words, first);
    note_unless(first, !lack_system(components), FaultKind::F7, end);
    note_second_system(components, first);
    Ok(table)
}
