//! The ports that occur, as rising places in the free order: `occurring_places`, `place_of`. They touch nothing
//! outside.

ghost use Rattle.std.specs.Prelude.{◌≡◌, ℕ, filter, length, nat_eq, nat_lt};
ghost use Rattle.std.specs.List.{list_any, position_or_len, range_with_len};
ghost use Rattle.spec_model.specs.FreePlaces.{Rises, count_before as count_by};

use sqlite_items::at;

/// The same ports, rising, each once.
fn rising(ports: Vec<u32>) -> Vec<u32>
    ensures rises { Rises 0 result.items }
    ensures same { (k : ℕ) → list_any (nat_eq k) result.items ≡ list_any (nat_eq k) ports.items }
{
    let mut rising = ports;
    rising.sort_unstable();
    rising.dedup();
    rising
}

/// How many of the places are before this one.
fn count_before(places: &[u32], place: usize) -> usize
    requires { Rises 0 places.now }
    ensures { result ≡ count_by places.now place }
{
    places.partition_point(|p| (*p as usize) < place)
}

/// Those of the first `free` places that are among these, rising.
pub(crate) fn occurring_places(ports: Vec<u32>, free: usize) -> Vec<u32>
    ensures rises { Rises 0 result.items }
    ensures places { result.items ≡ filter (λ k. list_any (nat_eq k) ports.items) (range_with_len 0 free) }
{
    let mut places = rising(ports);
    let kept = count_before(places.as_slice(), free);
    places.truncate(kept);
    places
}

/// The place of a port among these, or their number where it is none of them. In logarithmic time.
pub(crate) fn place_of(places: &[u32], port: usize) -> usize
    requires { Rises 0 places.now }
    ensures place { result ≡ position_or_len (nat_eq port) places.now }
    ensures listed { list_any (nat_eq port) places.now ≡ nat_lt result (length places.now) }
{
    let before = count_before(places, port);
    match at(places, before) {
        Some(found) => {
            if *found as usize == port {
                before
            } else {
                places.len()
            }
        }
        None => places.len(),
    }
}
