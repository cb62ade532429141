//! Prints names, numerals and the words of expressions. Main functions: `append_word`, `append_number`. Allocates the
//! text, and touches nothing else.

ghost use Rattle.std.specs.Prelude.{◌≡◌, ◌++◌, OnOk, codes, decimal};
ghost use Rattle.oss_printer.specs.Canonical.{port_word_text, prefix_text, binary_text, truth_text};

use itoa::Buffer;
use oss_syntax::{BinaryWord, PortWord, PrefixWord, Word};
use port_types::{NoMemory, Text};

/// Puts a name at the end of a text.
pub(crate) fn append_word(text: &mut Text, word: &Word) -> Result<(), NoMemory>
    ensures { OnOk result (text.new ≡ text.old ++ word.now.text) }
{
    text.append(word.text.as_str().as_bytes())
}

/// Puts a number at the end of a text.
pub(crate) fn append_number(text: &mut Text, number: u32) -> Result<(), NoMemory>
    ensures { OnOk result (text.new ≡ text.old ++ decimal number) }
{
    let mut buffer = Buffer::new();
    text.append(buffer.format(number).as_bytes())
}

/// Puts a truth word at the end of a text.
pub(crate) fn append_truth(text: &mut Text, truth: bool) -> Result<(), NoMemory>
    ensures { OnOk result (text.new ≡ text.old ++ truth_text truth) }
{
    if truth {
        text.append(b"true")
    } else {
        text.append(b"false")
    }
}

/// Puts a word that wants a port at the end of a text.
fn append_port_word(text: &mut Text, word: PortWord) -> Result<(), NoMemory>
    ensures { OnOk result (text.new ≡ text.old ++ port_word_text word) }
{
    match word {
        PortWord::Next => text.append(b"next"),
        PortWord::Change => text.append(b"change"),
        PortWord::Rise => text.append(b"rise"),
        PortWord::Fall => text.append(b"fall"),
    }
}

/// Puts a word before an operand, and the blank after it, at the end of a text.
pub(crate) fn append_prefix(text: &mut Text, word: PrefixWord) -> Result<(), NoMemory>
    ensures { OnOk result (text.new ≡ text.old ++ (prefix_text word ++ codes " ")) }
{
    match word {
        PrefixWord::Minus => text.append(b"- "),
        PrefixWord::Not => text.append(b"not "),
        PrefixWord::Always => text.append(b"always "),
        PrefixWord::Never => text.append(b"never "),
        PrefixWord::Future => text.append(b"in the future "),
        PrefixWord::Then => text.append(b"then "),
    }
}

/// Puts an operator between two operands at the end of a text.
pub(crate) fn append_binary(text: &mut Text, word: BinaryWord) -> Result<(), NoMemory>
    ensures { OnOk result (text.new ≡ text.old ++ binary_text word) }
{
    match word {
        BinaryWord::Plus => text.append(b"+"),
        BinaryWord::Minus => text.append(b"-"),
        BinaryWord::Equal => text.append(b"="),
        BinaryWord::NotEqual => text.append(b"!="),
        BinaryWord::Less => text.append(b"<"),
        BinaryWord::AtMost => text.append(b"<="),
        BinaryWord::Greater => text.append(b">"),
        BinaryWord::AtLeast => text.append(b">="),
        BinaryWord::Until => text.append(b"until"),
        BinaryWord::Releases => text.append(b"releases"),
        BinaryWord::And => text.append(b"and"),
        BinaryWord::Or => text.append(b"or"),
        BinaryWord::Implies => text.append(b"implies"),
        BinaryWord::Iff => text.append(b"iff"),
    }
}

/// Puts two names with a dot between them at the end of a text.
pub(crate) fn append_dotted(text: &mut Text, sub: &Word, port: &Word) -> Result<(), NoMemory>
    ensures { OnOk result (text.new ≡ text.old ++ (sub.now.text ++ codes "." ++ port.now.text)) }
{
    append_word(text, sub)?;
    text.append(b".")?;
    append_word(text, port)
}

/// Puts a word that wants a port, and that port in brackets, at the end of a text.
pub(crate) fn append_of_port(text: &mut Text, word: PortWord, port: &Word) -> Result<(), NoMemory>
    ensures { OnOk result (text.new ≡ text.old ++ (port_word_text word ++ codes "(" ++ port.now.text ++ codes ")")) }
{
    append_port_word(text, word)?;
    text.append(b"(")?;
    append_word(text, port)?;
    text.append(b")")
}
