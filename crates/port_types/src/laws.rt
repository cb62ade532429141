//! Laws about values and sets, for callers that cite them. None of these functions has code.

ghost use Rattle.std.specs.Prelude.{◌≡◌, ◌≢◌, ◌↔◌, ℕ, AllPairs, Contains};
ghost use Rattle.port_types.specs.Sets.{HasPlace};
ghost use Rattle.port_types.specs.Types.{values, IsOfType, IsDeclarable};
ghost use Rattle.port_types.specs.declared.sets.Set24.{Set24};
ghost use Rattle.port_types.specs.declared.types.PortType.{PortType};
ghost use Rattle.port_types.specs.declared.types.Value.{Value};

/// The values of a type are those of its kind and within its bounds.
pub fn values_by_kind()
    ensures { (t : PortType) (v : Value) → Contains (values t) v ↔ IsOfType t v }
{}

/// No value of a type stands twice among its values.
pub fn each_value_once()
    ensures { (t : PortType) → IsDeclarable t → AllPairs (λ a b. a ≢ b) (values t) }
{}

/// Two sets with the same members are the same.
pub fn sets_by_members()
    ensures { (s t : Set24) → ((p : ℕ) → HasPlace s p ↔ HasPlace t p) → s ≡ t }
{}
