//! The free order of a component as a table that finds the place of a port by binary search:
//! `FreeOrder::place`, and counts the free ports: `FreeOrder::count`. It touches nothing outside.

ghost use Rattle.std.specs.Prelude.{◌≡◌, ℕ, ◌+◌, ◌<◌, ◌^◌, ◌++◌, [], ◌∷◌, filter_map, length, nat_eq, position};
ghost use Rattle.std.specs.Prelude.{slice_get};
ghost use Rattle.std.specs.Prelude.{sum, IfOk, OnOk};
ghost use Rattle.std.specs.List.{cons_option, list_any};
ghost use Rattle.spec_model.specs.Architecture.{same_target};
ghost use Rattle.spec_model.specs.FreeRows.{free_among};
ghost use Rattle.spec_model.specs.FreePlaces as table;

use crate::wire::Target;
use port_types::NoMemory;
use sqlite_items::at;
use std::alloc::Global;
use std::marker::Model;

/// The free ports of a component with so many own ports and subcomponents with so many ports, by the places
/// of the driven ones among all ports. Contracts see the list of the free ports, in order.
#[derive(Drop)]
pub struct FreeOrder {
    own: usize,
    counts: Vec<usize>,
    starts: Vec<usize>,
    driven: Vec<usize>,
}

impl Model for FreeOrder {
    ghost use Rattle.std.specs.Prelude.{List, ◌≡◌, ◌+◌, ◌<◌, ◌^◌, sum};
    ghost use Rattle.spec_model.specs.declared.wire.Target.{Target};
    ghost use Rattle.spec_model.specs.FreePlaces.{starts_from, free_by_places, Rises};

    ghost Value = { List Target };

    ghost view = { λ o. free_by_places o.own o.counts.items o.driven.items };

    ghost invariant = { λ o. (o.starts.items ≡ starts_from o.own o.counts.items) × Rises 0 o.driven.items
        × (o.own + sum o.counts.items < 2 ^ 64) };
}

/// Puts where the ports of one more subcomponent begin, and tells where they end.
fn put_start(starts: &mut Vec<usize>, next: usize, count: usize) -> Result<usize, NoMemory>
    ensures starts { OnOk result (starts.new.items ≡ starts.old.items ++ next ∷ []) }
    ensures next { IfOk result (λ after. after ≡ next + count) }
    ensures fits { IfOk result (λ after. after < 2 ^ 64) }
{
    starts.push(next)?;
    next.checked_add(count).ok_or(NoMemory)
}

/// Where the ports of each subcomponent begin among all ports.
fn starts_of(alloc: Global, own: usize, counts: &[usize]) -> Result<Vec<usize>, NoMemory>
    ensures starts { IfOk result (λ starts. starts.items ≡ table.starts_from own counts.now) }
    ensures room { IfOk result (λ starts. own + sum counts.now < 2 ^ 64) }
{
    let mut starts = Vec::new(alloc);
    let mut next = own;
    for count in counts {
        next = put_start(&mut starts, next, *count)?;
    }
    Ok(starts)
}

/// The place of a port among all ports, where it is one.
fn whole_place(own: usize, counts: &[usize], starts: &[usize], target: &Target) -> Option<usize>
    requires starts { starts.now ≡ table.starts_from own counts.now }
    requires room { own + sum counts.now < 2 ^ 64 }
    ensures { result ≡ table.whole_place own counts.now target.now }
{
    let port = target.port.0 as usize;
    match target.sub {
        None => { if port < own { Some(port) } else { None } }
        Some(sub) => sub_place(own, counts, starts, sub.0 as usize, port),
    }
}

fn sub_place(
    own: usize,
    counts: &[usize],
    starts: &[usize],
    sub: usize,
    port: usize,
) -> Option<usize>
    requires starts { starts.now ≡ table.starts_from own counts.now }
    requires room { own + sum counts.now < 2 ^ 64 }
    ensures { result ≡ table.place_in_row (slice_get starts.now sub) (slice_get counts.now sub) port }
{
    match at(starts, sub) {
        None => None,
        Some(start) => match at(counts, sub) {
            None => None,
            Some(count) => {
                if port < *count {
                    Some(*start + port)
                } else {
                    None
                }
            }
        },
    }
}

fn put_place(driven: &mut Vec<usize>, place: Option<usize>) -> Result<(), NoMemory>
    ensures { OnOk result (driven.new.items ≡ driven.old.items ++ cons_option place []) }
{
    match place {
        Some(place) => {
            driven.push(place)?;
            Ok(())
        }
        None => Ok(()),
    }
}

/// The places of these targets among all ports.
fn places_of(
    alloc: Global,
    own: usize,
    counts: &[usize],
    starts: &[usize],
    targets: &[Target],
) -> Result<Vec<usize>, NoMemory>
    requires starts { starts.now ≡ table.starts_from own counts.now }
    requires room { own + sum counts.now < 2 ^ 64 }
    ensures { IfOk result (λ driven. driven.items ≡ filter_map (table.whole_place own counts.now) targets.now) }
{
    let mut driven = Vec::new(alloc);
    for target in targets {
        put_place(&mut driven, whole_place(own, counts, starts, target))?;
    }
    Ok(driven)
}

/// The same places, rising, each once.
fn rising(places: Vec<usize>) -> Vec<usize>
    ensures rises { table.Rises 0 result.items }
    ensures same { (k : ℕ) → list_any (nat_eq k) result.items ≡ list_any (nat_eq k) places.items }
{
    let mut rising = places;
    rising.sort_unstable();
    rising.dedup();
    rising
}

/// How many of the driven places are before this one.
fn count_before(driven: &[usize], place: usize) -> usize
    requires { table.Rises 0 driven.now }
    ensures { result ≡ table.count_before driven.now place }
{
    driven.partition_point(|d| *d < place)
}

/// The place in the free order, by the place among all ports.
fn place_among_free(driven: &[usize], place: usize) -> Option<usize>
    requires { table.Rises 0 driven.now }
    ensures { result ≡ table.place_among_free driven.now (Some place) }
{
    let before = count_before(driven, place);
    match at(driven, before) {
        Some(found) => {
            if *found == place {
                None
            } else {
                Some(place - before)
            }
        }
        None => Some(place - before),
    }
}

/// The place of a port among the free ones.
fn find_place(
    own: usize,
    counts: &[usize],
    starts: &[usize],
    driven: &[usize],
    target: &Target,
) -> Option<usize>
    requires starts { starts.now ≡ table.starts_from own counts.now }
    requires room { own + sum counts.now < 2 ^ 64 }
    requires rises { table.Rises 0 driven.now }
    ensures { result ≡ position (same_target target.now) (table.free_by_places own counts.now driven.now) }
{
    match whole_place(own, counts, starts, target) {
        Some(place) => place_among_free(driven, place),
        None => None,
    }
}

/// How many ports there are.
fn total(own: usize, counts: &[usize]) -> usize
    requires { own + sum counts.now < 2 ^ 64 }
    ensures { result ≡ own + sum counts.now }
{
    let mut total = own;
    for count in counts {
        total += *count;
    }
    total
}

impl FreeOrder {
    /// The free ports of a component with `own` ports and subcomponents with these numbers of ports, where
    /// connections drive these targets.
    pub fn new(
        alloc: Global,
        own: usize,
        counts: Vec<usize>,
        targets: &[Target],
    ) -> Result<FreeOrder, NoMemory>
        ensures { IfOk result (λ order. order ≡ free_among own counts.items targets.now) }
    {
        let starts = starts_of(alloc, own, counts.as_slice())?;
        let driven = places_of(alloc, own, counts.as_slice(), starts.as_slice(), targets)?;
        let driven = rising(driven);
        Ok(FreeOrder {
            own,
            counts,
            starts,
            driven,
        })
    }

    /// How many free ports there are.
    pub fn count(&self) -> usize
        ensures { result ≡ length self.now }
    {
        let total = total(self.own, self.counts.as_slice());
        total - count_before(self.driven.as_slice(), total)
    }

    /// The place of a port in the free order; none where it is no free port. In logarithmic time.
    pub fn place(&self, target: &Target) -> Option<usize>
        ensures { result ≡ position (same_target target.now) self.now }
    {
        find_place(
            self.own,
            self.counts.as_slice(),
            self.starts.as_slice(),
            self.driven.as_slice(),
            target,
        )
    }
}
