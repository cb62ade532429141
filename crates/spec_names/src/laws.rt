//! Laws on the directory of names, for callers that cite them. None of these functions has code.

ghost use Rattle.std.specs.Prelude.{◌≡◌, ℕ, List, Some, slice_get};
ghost use Rattle.oss_syntax.specs.Trees.{Component};
ghost use Rattle.spec_names.specs.declared.directory.Directory.{Directory};
ghost use Rattle.spec_names.specs.declared.interfaces.InterfaceTables.{InterfaceTables};
ghost use Rattle.spec_names.specs.declared.refinements.RefinementTables.{RefinementTables};
ghost use Rattle.spec_names.specs.Directory.{IsInterface, IsRefinementOf, IsDirectoryOf};
ghost use Rattle.spec_names.specs.Scopes.{refinement_parts};

/// The directory of a specification has the tables of each component, at the place of the component.
pub fn directory_has_tables()
    ensures interface { (components : List Component) (d : Directory) (place : ℕ) (c : Component)
        → IsDirectoryOf components d → slice_get components place ≡ Some c
        → (tables : InterfaceTables) × (slice_get d.interfaces.items place ≡ Some tables) × IsInterface c.interface
        tables }
    ensures refinement { (components : List Component) (d : Directory) (place : ℕ) (c : Component)
        → IsDirectoryOf components d → slice_get components place ≡ Some c
        → (tables : RefinementTables) × (slice_get d.refinements.items place ≡ Some tables) × IsRefinementOf
        components (refinement_parts c) tables }
{}
