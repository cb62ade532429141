//! The types of specifications that files are: the laws that they can be coded in bits, that formulas read ports of the
//! kinds that they want, and that connections read free ports. Main functions: `files_have_codable_types` and
//! `files_read_free_ports`, which have no code. The crate touches nothing.
#![tactic(auto)]

ghost use Rattle.file_types.specs.Laws.{FilesHaveCodableTypes, FilesReadFreePorts};

/// The types of the specification that a file without a fault is can be coded, and its formulas read ports of the kinds
/// that they want. (A law without code: who calls this may rely on it.)
pub fn files_have_codable_types()
    ensures { FilesHaveCodableTypes }
{
    architecture::resolved_has_values();
    oss_lexer::tokens_stand();
}

/// The contracts of the specification that a file without a fault is read ports of their component, and its connections
/// free ports; it is well formed. (A law without code.)
pub fn files_read_free_ports()
    ensures { FilesReadFreePorts }
{
    architecture::resolved_is_well_formed();
    architecture::texts_have_state_sources();
}
