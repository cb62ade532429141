//! Names that stand twice. Main functions: `table_of`, `note_again`. A table of the first places of words is made
//! once, and tells for each word whether it stood before. It allocates that table.

ghost use Rattle.std.specs.Prelude.{◌≡◌, false, nat_lt, IfOk, map};
ghost use Rattle.std.specs.Option.{option_map_or};
ghost use Rattle.spec_names.specs.NamesFaults.{again, same_name, start_of};
ghost use Rattle.spec_names.specs.Noting.{noted};
ghost use Rattle.spec_names.specs.Tables.{IsPlaceTable, entry_place};
ghost use Rattle.spec_names.specs.Words.{word_at};

use crate::noting::note_unless;
use crate::table::PlaceTable;
use oss_base::{FaultKind, FirstSite};
use oss_syntax::Word;
use port_types::NoMemory;
use std::alloc::Global;

/// The table of the first places of words. Where there are 2^32 or more it answers want of memory.
pub(crate) fn table_of(alloc: Global, words: &[&Word]) -> Result<PlaceTable, NoMemory>
    ensures { IfOk result (λ table. IsPlaceTable (map word_at words.now) table) }
{
    if words.len() > u32::MAX as usize {
        return Err(NoMemory);
    }
    let mut table = PlaceTable::new(alloc);
    for (place, word) in words.iter().enumerate() {
        table.add(alloc, word.text.as_str(), place as u32)?;
    }
    Ok(table)
}

/// Whether the first word of this name stands before the place.
fn stood_before(table: &PlaceTable, word: &Word, place: usize) -> bool
    ensures { result ≡ option_map_or (λ first. nat_lt first place) (entry_place table.now word.now.text) false }
{
    match table.find(word.text.as_str()) {
        Some(first) => (first as usize) < place,
        None => false,
    }
}

/// Notes each word that stood before.
pub(crate) fn note_again(
    kind: FaultKind,
    table: &PlaceTable,
    words: &[&Word],
    first: &mut FirstSite,
)
    requires { IsPlaceTable (map word_at words.now) table.now }
    ensures { first.new ≡ noted (again kind same_name start_of (map word_at words.now)) first.old }
{
    for (place, word) in words.iter().enumerate() {
        let is_new = !stood_before(table, word, place);
        note_unless(first, is_new, kind, word.span.start);
    }
}
