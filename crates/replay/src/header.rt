//! The first line of a lasso: its component, the number of states, and the place of the loop. Main function:
//! `read_header`. It allocates nothing; it answers want of memory where a component has no number of 32 bits.

ghost use Rattle.std.specs.Prelude.{◌≡◌, ◌<◌, ◌≤◌, ◌∷◌, [], ℕ, List, IfOk, IfSome, IfNone, option_map, decimal, ◌↔◌};
ghost use Rattle.std.specs.Prelude.{IsTrue, position, bytes_eq};
ghost use Rattle.spec_model.specs.declared.spec.Component.{Component as Part};
ghost use Rattle.oss_base.specs.declared.ids.ComponentId.{ComponentId as Id};
ghost use Rattle.replay.specs.TextLines.{words_of_line};
ghost use Rattle.replay.specs.LassoFiles.{IsHeaderLine, place_of_component, most_states};

use crate::lines::next_word;
use crate::numbers::read_count;
use oss_base::ComponentId;
use port_types::NoMemory;
use spec_model::{Component, Spec};

/// A lasso has at most so many states.
const MOST_STATES: u64 = 256;

/// What the first line of a lasso says.
#[derive(Clone, Copy, Debug, PartialEq, Eq)]
pub struct Header {
    pub component: ComponentId,
    pub states: usize,
    pub loop_at: usize,
}

/// The four words of a line.
#[derive(Clone, Copy)]
struct FourWords<'a> {
    keyword: &'a [u8],
    component: &'a [u8],
    states: &'a [u8],
    loop_at: &'a [u8],
}

fn four_words(line: &[u8]) -> Option<FourWords<'_>>
    ensures some { IfSome result (λ w. words_of_line line.now
        ≡ w.keyword.now ∷ w.component.now ∷ w.states.now ∷ w.loop_at.now ∷ []) }
    ensures none { IfNone result ((a b c d : List ℕ) → words_of_line line.now ≡ a ∷ b ∷ c ∷ d ∷ [] → ⊥) }
{
    let Some((keyword, rest)) = next_word(line) else {
        return None;
    };
    let Some((component, rest)) = next_word(rest) else {
        return None;
    };
    let Some((states, rest)) = next_word(rest) else {
        return None;
    };
    let Some((loop_at, rest)) = next_word(rest) else {
        return None;
    };
    match next_word(rest) {
        Some(_) => None,
        None => Some(FourWords {
            keyword,
            component,
            states,
            loop_at,
        }),
    }
}

/// The place of the first component of a name.
fn place_named(components: &[Component], name: &[u8]) -> Option<usize>
    ensures { result ≡ position (λ (k : Part). bytes_eq name.now k.name) components.now }
{
    components
        .iter()
        .position(|component| name == component.name.as_str().as_bytes())
}

/// The first component of a name.
fn component_named(spec: &Spec, name: &[u8]) -> Result<Option<ComponentId>, NoMemory>
    ensures { IfOk result (λ r. option_map (λ (c : Id). c.0) r ≡ place_of_component spec.now name.now) }
{
    match place_named(spec.components.as_slice(), name) {
        Some(place) => match u32::try_from(place) {
            Ok(place) => Ok(Some(ComponentId(place))),
            Err(_) => Err(NoMemory),
        },
        None => Ok(None),
    }
}

fn is_in_range(states: u64, loop_at: u64) -> bool
    ensures { IsTrue result ↔ (states ≤ most_states) × (loop_at < states) }
{
    states <= MOST_STATES && loop_at < states
}

/// The number of states and the place of the loop, where they are in range.
fn read_range(states: &[u8], loop_at: &[u8]) -> Option<(usize, usize)>
    ensures states { IfSome result (λ r. states.now ≡ decimal r.0) }
    ensures loop_at { IfSome result (λ r. loop_at.now ≡ decimal r.1) }
    ensures most { IfSome result (λ r. r.0 ≤ most_states) }
    ensures in_range { IfSome result (λ r. r.1 < r.0) }
    ensures none { IfNone result ((n l : ℕ) → states.now ≡ decimal n → loop_at.now ≡ decimal l → n ≤ most_states
        → l < n → ⊥) }
{
    let (Some(states), Some(loop_at)) = (read_count(states), read_count(loop_at)) else {
        return None;
    };
    if is_in_range(states, loop_at) {
        Some((states as usize, loop_at as usize))
    } else {
        None
    }
}

/// What the first line of a lasso says, none where it is no such line.
pub fn read_header(spec: &Spec, line: &[u8]) -> Result<Option<Header>, NoMemory>
    ensures some { IfOk result (λ r. IfSome r (λ h.
        IsHeaderLine spec.now (words_of_line line.now) h.component h.states h.loop_at)) }
    ensures none { IfOk result (λ r. IfNone r ((c : Id) (states loop_at : ℕ)
        → IsHeaderLine spec.now (words_of_line line.now) c states loop_at → ⊥)) }
{
    let Some(words) = four_words(line) else {
        return Ok(None);
    };
    if words.keyword != b"lasso".as_slice() {
        return Ok(None);
    }
    let Some((states, loop_at)) = read_range(words.states, words.loop_at) else {
        return Ok(None);
    };
    match component_named(spec, words.component)? {
        Some(component) => Ok(Some(Header {
            component,
            states,
            loop_at,
        })),
        None => Ok(None),
    }
}
