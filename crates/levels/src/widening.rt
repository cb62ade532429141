//! Lassos over the ports that occur in a level, widened to all free ports: `Level::widen`. May touch the
//! allocator.

ghost use Rattle.std.specs.Prelude.{◌≡◌, ℕ, IfOk, map, slice_index_or};
ghost use Rattle.port_types.specs.declared.types.PortType.TheVariants as kind;
ghost use Rattle.spec_model.specs.FreePlaces.{Rises};
ghost use Rattle.typed_ltl.specs.Traces.{assignment};
ghost use Rattle.spec_model.specs.FreeTypes.{free_types};
ghost use Rattle.levels.specs.Steps.{shown_type};
ghost use Rattle.first_lasso.specs.UsedPorts.{first_value as first_of_type, widened_value, widened_state};

use crate::level::Level;
use crate::limits::count_of_range;
use crate::places::place_of;
use port_types::{NoMemory, PortType, Value};
use spec_model::{FreePort, Spec};
use sqlite_items::at;
use std::alloc::Global;
use typed_ltl::{Lasso, Valuation, Valuations};

/// The first value of a type; a type without values has false.
fn first_value(kind: &PortType) -> Result<Value, NoMemory>
    ensures { IfOk result (λ value. value ≡ first_of_type kind.now) }
{
    match kind {
        PortType::Bool => Ok(Value::Bool(false)),
        PortType::Range { lo, hi } => {
            if count_of_range(*lo, *hi) > 0 {
                Ok(Value::Int(i64::from(*lo)))
            } else {
                Ok(Value::Bool(false))
            }
        }
        PortType::Enum(names) => match at(names.as_slice(), 0) {
            Some(name) => Ok(Value::Name(name.copy()?)),
            None => Ok(Value::Bool(false)),
        },
    }
}

fn value_of(state: &[Value], place: usize) -> Result<Value, NoMemory>
    ensures { IfOk result (λ value. value ≡ assignment state.now place) }
{
    match at(state, place) {
        Some(value) => value.copy(),
        None => Ok(Value::Bool(false)),
    }
}

fn first_value_at(free: &[FreePort], k: usize) -> Result<Value, NoMemory>
    ensures { IfOk result (λ value. value
        ≡ first_of_type (slice_index_or (map shown_type free.now) k kind.Bool)) }
{
    match at(free, k) {
        Some(port) => first_value(&port.kind),
        None => Ok(Value::Bool(false)),
    }
}

/// The value of the free port at place `k`.
fn wide_value(
    free: &[FreePort],
    places: &[u32],
    state: &[Value],
    k: usize,
) -> Result<Value, NoMemory>
    requires { Rises 0 places.now }
    ensures { IfOk result (λ value. value
        ≡ widened_value (map shown_type free.now) places.now state.now k) }
{
    let place = place_of(places, k);
    if place < places.len() {
        value_of(state, place)
    } else {
        first_value_at(free, k)
    }
}

fn wide_state(
    alloc: Global,
    free: &[FreePort],
    places: &[u32],
    state: &[Value],
) -> Result<Valuation, NoMemory>
    requires { Rises 0 places.now }
    ensures { IfOk result (λ wide. wide ≡ widened_state (map shown_type free.now) places.now state.now) }
{
    let mut wide = Valuation::new(alloc);
    for k in 0..free.len() {
        let value = wide_value(free, places, state, k)?;
        wide.push(value)?;
    }
    Ok(wide)
}

fn wide_states(
    alloc: Global,
    free: &[FreePort],
    places: &[u32],
    states: &[Valuation],
) -> Result<Valuations, NoMemory>
    requires { Rises 0 places.now }
    ensures { IfOk result (λ wide. wide
        ≡ map (widened_state (map shown_type free.now) places.now) states.now) }
{
    let mut wide = Valuations::new(alloc);
    for state in states {
        let state = wide_state(alloc, free, places, state.as_slice())?;
        wide.push(state)?;
    }
    Ok(wide)
}

impl Level {
    /// The same lasso over all free ports of the level's component: each port that does not occur in the level
    /// has the first value of its type.
    pub fn widen(&self, spec: &Spec, lasso: &Lasso) -> Result<Lasso, NoMemory>
        ensures states { IfOk result (λ wide. wide.states
            ≡ map (widened_state (free_types spec.now self.now.component) self.now.places) lasso.now.states) }
        ensures loop_at { IfOk result (λ wide. wide.loop_at ≡ lasso.now.loop_at) }
    {
        let alloc = self.allocator();
        let free = spec.free_ports(self.component)?;
        let states = wide_states(
            alloc,
            free.as_slice(),
            self.places.as_slice(),
            lasso.states.as_slice(),
        )?;
        Ok(Lasso {
            states,
            loop_at: lasso.loop_at,
        })
    }
}
