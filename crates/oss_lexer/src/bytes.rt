//! Classes of bytes, and how far the longest run of one, or the longest symbol, goes. Main functions: `word_len`,
//! `numeral_len`, `comment_len`, `symbol_len`. Reads the text only, and allocates nothing.

ghost use Rattle.std.specs.Prelude.{◌≡◌, ◌∷◌, [], ◌≤◌, ◌↔◌, true, take, length, IsTrue};
ghost use Rattle.std.specs.Char.{is_ascii_digit};
ghost use Rattle.std.specs.List.{prefix_len};
ghost use Rattle.oss_syntax.specs.Tokens.{symbols, is_blank, is_word_start, is_word_byte, is_comment_byte};
ghost use Rattle.oss_syntax.specs.Tokens.{begins_comment};
ghost use Rattle.oss_lexer.specs.Fronts.{longest_of, of_length, is_listed};

/// Whether a byte is a space, a tab, a carriage return or a line feed.
pub fn is_blank(byte: u8) -> bool
    ensures { result ≡ is_blank byte }
{
    byte == b' ' || byte == b'\t' || byte == b'\r' || byte == b'\n'
}

/// Whether a byte is a letter or `_`.
pub fn is_word_start(byte: u8) -> bool
    ensures { result ≡ is_word_start byte }
{
    byte.is_ascii_alphabetic() || byte == b'_'
}

/// Whether a byte is a letter, a digit or `_`.
fn is_word_byte(byte: u8) -> bool
    ensures { result ≡ is_word_byte byte }
{
    byte.is_ascii_alphanumeric() || byte == b'_'
}

/// Whether a comment begins at the front.
pub fn begins_comment(bytes: &[u8]) -> bool
    ensures { result ≡ begins_comment bytes.now }
{
    bytes.starts_with(b"--") || bytes.starts_with(b"//")
}

/// How many bytes at the front go on with a comment.
pub fn comment_len(bytes: &[u8]) -> usize
    ensures { result ≡ prefix_len is_comment_byte bytes.now }
{
    for (i, byte) in bytes.iter().enumerate() {
        if *byte == b'\n' {
            return i;
        }
    }
    bytes.len()
}

/// How many bytes at the front go on with a word.
pub fn word_len(bytes: &[u8]) -> usize
    ensures { result ≡ prefix_len is_word_byte bytes.now }
{
    for (i, byte) in bytes.iter().enumerate() {
        if !is_word_byte(*byte) {
            return i;
        }
    }
    bytes.len()
}

/// How many bytes at the front are digits.
pub fn numeral_len(bytes: &[u8]) -> usize
    ensures { result ≡ prefix_len is_ascii_digit bytes.now }
{
    for (i, byte) in bytes.iter().enumerate() {
        if !byte.is_ascii_digit() {
            return i;
        }
    }
    bytes.len()
}

/// Whether a byte alone is a symbol.
#[tactic(auto, unfolding(oss_syntax::specs::Tokens::symbols))]
fn is_symbol_of_one(byte: u8) -> bool
    ensures { result ≡ is_listed (of_length 1 symbols) (byte ∷ []) }
{
    matches!(
        byte,
        b':' | b';'
            | b','
            | b'.'
            | b'('
            | b')'
            | b'{'
            | b'}'
            | b'['
            | b']'
            | b'='
            | b'<'
            | b'>'
            | b'+'
            | b'-'
            | b'*'
            | b'/'
            | b'!'
            | b'&'
            | b'|'
            | b'@'
    )
}

/// Whether two bytes are a symbol.
#[tactic(auto, unfolding(oss_syntax::specs::Tokens::symbols))]
fn is_symbol_of_two(first: u8, second: u8) -> bool
    ensures { result ≡ is_listed (of_length 2 symbols) (first ∷ second ∷ []) }
{
    matches!(
        (first, second),
        (b':' | b'<' | b'>' | b'!', b'=') | (b'.', b'.') | (b'-', b'>')
    )
}

/// Whether three bytes are a symbol.
#[tactic(auto, unfolding(oss_syntax::specs::Tokens::symbols))]
fn is_symbol_of_three(first: u8, second: u8, third: u8) -> bool
    ensures { result ≡ is_listed (of_length 3 symbols) (first ∷ second ∷ third ∷ []) }
{
    first == b'<' && second == b'-' && third == b'>'
}

/// Whether a symbol of one byte stands at the front.
fn begins_with_one(bytes: &[u8]) -> bool
    ensures { result ≡ is_listed (of_length 1 symbols) (take 1 bytes.now) }
{
    match bytes {
        [first, ..] => is_symbol_of_one(*first),
        [] => false,
    }
}

/// Whether a symbol of two bytes stands at the front.
fn begins_with_two(bytes: &[u8]) -> bool
    ensures { result ≡ is_listed (of_length 2 symbols) (take 2 bytes.now) }
{
    match bytes {
        [first, second, ..] => is_symbol_of_two(*first, *second),
        _ => false,
    }
}

/// Whether a symbol of three bytes stands at the front.
fn begins_with_three(bytes: &[u8]) -> bool
    ensures { result ≡ is_listed (of_length 3 symbols) (take 3 bytes.now) }
{
    match bytes {
        [first, second, third, ..] => is_symbol_of_three(*first, *second, *third),
        _ => false,
    }
}

/// The length of the longest symbol at the front, or 0 where there is none.
pub fn symbol_len(bytes: &[u8]) -> usize
    ensures { result ≡ longest_of symbols bytes.now }
{
    if begins_with_three(bytes) {
        3
    } else if begins_with_two(bytes) {
        2
    } else if begins_with_one(bytes) {
        1
    } else {
        0
    }
}
