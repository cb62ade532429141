//! What may come of a file before anything of it is written. It touches nothing.

use port_types::Text;

/// What came of a file, before anything of it is written.
#[derive(Debug, Drop)]
pub enum SatOutcome {
    /// There is a model, and this is the text of it.
    Sat(Text),
    /// There is no model; with a trace, if one is asked for.
    Unsat(Option<Text>),
    /// The file breaks the format, and this line says where.
    Refused(Text),
    /// The file could not be read.
    ReadFault,
    NoMemory,
}
