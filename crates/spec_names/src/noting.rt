//! Faults of names as they are noted. No memory is touched.

ghost use Rattle.std.specs.Prelude.{◌≡◌, [], ◌∷◌};
ghost use Rattle.spec_names.specs.NamesFaults.{site};
ghost use Rattle.spec_names.specs.Noting.{noted, none_if};

use oss_base::{FaultKind, FaultSite, FirstSite};

/// Notes a fault of this kind at this offset.
pub(crate) fn note(first: &mut FirstSite, kind: FaultKind, offset: u32)
    ensures { first.new ≡ noted (site kind offset ∷ []) first.old }
{
    first.note(FaultSite { kind, offset });
}

/// Notes a fault of this kind at this offset, unless all is well.
pub(crate) fn note_unless(first: &mut FirstSite, well: bool, kind: FaultKind, offset: u32)
    ensures { first.new ≡ noted (none_if well (site kind offset)) first.old }
{
    if !well {
        note(first, kind, offset);
    }
}
