//! Lassos of specifications that files are: the law that what is printed of them is read as itself. Main function:
//! `blocks_of_files_read_back`, which has no code. The crate touches nothing.
#![tactic(auto)]

ghost use Rattle.file_lassos.specs.Laws.{ResolvedHasFileNames, BlocksOfFilesReadBack};

/// A lasso of a component of the specification that a file is, printed by `write_lasso` with the component's name, is
/// read as itself by `read_lasso`, within the limits on states and bytes: the names and values of each component can
/// stand in a lasso file. (A law without code: who calls this may rely on it.)
pub fn blocks_of_files_read_back()
    ensures names { ResolvedHasFileNames }
    ensures blocks { BlocksOfFilesReadBack }
{
    replay::blocks_read_back();
}
