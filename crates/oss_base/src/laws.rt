//! Laws about sites of faults, for callers that cite them. None of these functions has code.

ghost use Rattle.std.specs.Prelude.{◌≡◌, ◌↔◌, List, [], ◌++◌, Some, None, Contains};
ghost use Rattle.oss_base.specs.Faults.{fault_number};
ghost use Rattle.oss_base.specs.Sites.{earlier_site, first_of, IsFirstSite};
ghost use Rattle.oss_base.specs.declared.fault.FaultKind.{FaultKind};
ghost use Rattle.oss_base.specs.declared.sites.FaultSite.{FaultSite};

/// No two kinds of fault have one number.
pub fn numbers_tell_kinds()
    ensures { (a b : FaultKind) → fault_number a ≡ fault_number b → a ≡ b }
{}

/// The first of two lists together is the earlier of their firsts.
pub fn first_of_both()
    ensures { (a b : List FaultSite) → first_of (a ++ b) ≡ earlier_site (first_of a) (first_of b) }
{}

/// The first site of a list is the one member that no member goes before; only the empty list has
/// none; and the order of the list does not matter.
pub fn first_is_least()
    ensures member { (a : List FaultSite) (s : FaultSite) → (first_of a ≡ Some s) ↔ IsFirstSite a s }
    ensures none { (a : List FaultSite) → (first_of a ≡ None) ↔ (a ≡ []) }
    ensures order { (a b : List FaultSite) → ((s : FaultSite) → Contains a s ↔ Contains b s) → first_of a ≡ first_of b }
{}
