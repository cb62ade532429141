//! Names `SUB.NAME` that stand twice. Main function: `note_pairs_again`. It allocates the set of those before.

ghost use Rattle.std.specs.Prelude.{◌≡◌, [], OnOk, IfOk, map, not};
ghost use Rattle.spec_names.specs.NamesFaults.{again, same_dotted, dotted_start};
ghost use Rattle.spec_names.specs.Pairs.{has_texts, HasOneMore};
ghost use Rattle.spec_names.specs.Noting.{noted};
ghost use Rattle.spec_names.specs.Words.{pair_at};

use crate::noting::note_unless;
use indexmap::IndexSet;
use oss_base::{FaultKind, FirstSite};
use oss_syntax::Word;
use port_types::NoMemory;
use std::alloc::Global;
use std::marker::Model;

/// Pairs of names, each of them once. Contracts see the list of them.
#[derive(Drop)]
pub struct PairSet {
    pairs: IndexSet<(String, String)>,
}

impl Model for PairSet {
    ghost use Rattle.std.specs.Prelude.{List, ℕ, map};
    ghost use Rattle.spec_names.specs.Pairs.{pair_bytes};

    ghost Value = { List (List ℕ × List ℕ) };

    ghost view = { λ t. map pair_bytes t.pairs.keys };
}

impl PairSet {
    fn new(alloc: Global) -> PairSet
        ensures { result ≡ [] }
    {
        PairSet {
            pairs: IndexSet::new(alloc),
        }
    }

    /// Puts a pair into the set, and says whether it was not there.
    fn add(&mut self, alloc: Global, first: &str, second: &str) -> Result<bool, NoMemory>
        ensures added { IfOk result (λ added. added ≡ not (has_texts self.old (first.now, second.now))) }
        ensures pairs { OnOk result (HasOneMore self.old self.new (first.now, second.now)) }
    {
        let pair = (
            String::from_str(alloc, first)?,
            String::from_str(alloc, second)?,
        );
        let (_place, added) = self.pairs.insert_full(pair)?;
        Ok(added)
    }
}

/// Notes each pair that stood before.
pub(crate) fn note_pairs_again(
    alloc: Global,
    kind: FaultKind,
    pairs: &[(&Word, &Word)],
    first: &mut FirstSite,
) -> Result<(), NoMemory>
    ensures { OnOk result (first.new ≡ noted (again kind same_dotted dotted_start (map pair_at pairs.now)) first.old) }
{
    let mut set = PairSet::new(alloc);
    for pair in pairs {
        let (sub, name) = *pair;
        let is_new = set.add(alloc, sub.text.as_str(), name.text.as_str())?;
        note_unless(first, is_new, kind, sub.span.start);
    }
    Ok(())
}
