//! What may come of a command before anything of it is written. It touches nothing.

use port_types::Text;

/// What a command writes, and the status that it ends with.
#[derive(Debug, Drop)]
pub struct Report {
    pub text: Text,
    pub status: u8,
}

/// What came of a command, before anything of it is written.
#[derive(Debug, Drop)]
pub enum Outcome<'a> {
    /// The command is done, and this is its report.
    Done(Report),
    /// The file is refused, and this line says for which fault.
    Refused(Text),
    /// The second file is refused, and this line says for which fault.
    SecondRefused(Text),
    /// The file of this name could not be read.
    ReadFault { file: &'a str },
    NoMemory,
}
