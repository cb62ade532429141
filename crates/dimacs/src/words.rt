//! The words of a text that count, one after the other, with the numbers of their lines. Main function: `next_told`. It
//! reads the text only, and allocates nothing.

ghost use Rattle.std.specs.Prelude.{◌≡◌, ◌≢◌, ◌+◌, ◌<◌, ◌≤◌, ◌^◌, ◌∷◌, ◌++◌, ℕ, List, [], length, IfOk, IfErr, IfSome};
ghost use Rattle.std.specs.Prelude.{IfNone};
ghost use Rattle.std.specs.List.{position_or_len};
ghost use Rattle.std.specs.Str.Lines.{lines, strip_carriage_return};
ghost use Rattle.dimacs.specs.Dimacs.{is_blank_or_tab, is_comment, words_between_blanks, told_words, words_of_lines};
ghost use Rattle.dimacs.specs.DimacsReading.{ends_run, BeginsWithLines, IsReadUpTo};

/// A byte at which a run ends: the end of a line, a blank or tab, any other byte.
#[derive(Clone, Copy, Debug, PartialEq, Eq)]
pub enum RunEnd {
    LineFeed,
    Blank,
    Word,
}

/// What is left of a text: of the line of this number, and behind it.
#[derive(Clone, Copy, Debug)]
pub struct Ahead<'a> {
    pub number: usize,
    pub rest: &'a [u8],
    pub behind: &'a [u8],
}

/// A word, and what is left of the text after it.
#[derive(Clone, Copy, Debug)]
pub struct WordAhead<'a> {
    pub word: &'a [u8],
    pub ahead: Ahead<'a>,
}

/// No word is left; the text has so many lines.
#[derive(Clone, Copy, Debug, PartialEq, Eq)]
pub struct TextEnd {
    pub lines: usize,
}

fn is_blank_or_tab(byte: u8) -> bool
    ensures { result ≡ is_blank_or_tab byte }
{
    byte == b' ' || byte == b'\t'
}

fn ends(end: RunEnd, byte: u8) -> bool
    ensures { result ≡ ends_run end byte }
{
    match end {
        RunEnd::LineFeed => byte == b'\n',
        RunEnd::Blank => is_blank_or_tab(byte),
        RunEnd::Word => !is_blank_or_tab(byte),
    }
}

/// How many bytes stand before the first of these.
fn run_len(bytes: &[u8], end: RunEnd) -> usize
    ensures place { result ≡ position_or_len (ends_run end) bytes.now }
    ensures within { result ≤ length bytes.now }
{
    for (i, byte) in bytes.iter().enumerate() {
        if ends(end, *byte) {
            return i;
        }
    }
    bytes.len()
}

/// The next word of a line, and what comes after it.
fn next_word(line: &[u8]) -> Option<(&[u8], &[u8])>
    ensures some { IfSome result (λ w. words_between_blanks line.now ≡ w.0.now ∷ words_between_blanks w.1.now) }
    ensures shorter { IfSome result (λ w. length w.1.now < length line.now) }
    ensures none { IfNone result (words_between_blanks line.now ≡ []) }
{
    let (_, words) = line.split_at(run_len(line, RunEnd::Word));
    let end = run_len(words, RunEnd::Blank);
    if end == 0 {
        return None;
    }
    Some(words.split_at(end))
}

/// The line without the carriage return at its end.
fn without_return(line: &[u8]) -> &[u8]
    ensures value { result.now ≡ strip_carriage_return line.now }
    ensures shorter { length result.now ≤ length line.now }
{
    match line {
        [front @ .., b'\r'] => front,
        _ => line,
    }
}

/// The first line, and what comes after it.
fn cut_line(bytes: &[u8]) -> (&[u8], &[u8])
    requires { bytes.now ≢ [] }
    ensures cut { lines bytes.now ≡ result.0.now ∷ lines result.1.now }
    ensures shorter { length result.1.now + 1 ≤ length bytes.now }
    ensures together { length result.0.now + length result.1.now ≤ length bytes.now }
{
    let end = run_len(bytes, RunEnd::LineFeed);
    if end < bytes.len() {
        (without_return(&bytes[..end]), &bytes[end + 1..])
    } else {
        (bytes, &bytes[end..])
    }
}

/// Whether a line is a comment.
fn is_comment(line: &[u8]) -> bool
    ensures { result ≡ is_comment line.now }
{
    match line {
        [] => false,
        [first, ..] => *first == b'c',
    }
}

/// The part of a line that counts: nothing of a comment.
fn told_part(line: &[u8]) -> &[u8]
    ensures words { words_between_blanks result.now ≡ told_words line.now }
    ensures shorter { length result.now ≤ length line.now }
{
    if is_comment(line) {
        return &[];
    }
    line
}

/// The next word that counts.
pub fn next_told<'a>(
    number: usize,
    rest: &'a [u8],
    behind: &'a [u8],
) -> Result<WordAhead<'a>, TextEnd>
    requires { number + length behind.now < 2 ^ 63 }
    ensures word { IfOk result (λ found. (text : List ℕ) → (words : List (List ℕ))
        → IsReadUpTo text number rest.now behind.now words
        → IsReadUpTo text found.ahead.number found.ahead.rest.now found.ahead.behind.now
        (words ++ found.word.now ∷ [])) }
    ensures line { IfOk result (λ found. (text : List ℕ) → (words : List (List ℕ))
        → IsReadUpTo text number rest.now behind.now words → BeginsWithLines text found.ahead.number words) }
    ensures further { IfOk result (λ found. found.ahead.number + length found.ahead.behind.now
        ≤ number + length behind.now) }
    ensures shorter { IfOk result (λ found. length found.ahead.rest.now + length found.ahead.behind.now
        < length rest.now + length behind.now) }
    ensures end { IfErr result (λ end. (text : List ℕ) → (words : List (List ℕ))
        → IsReadUpTo text number rest.now behind.now words
        → (words ≡ words_of_lines (lines text)) × (end.lines ≡ length (lines text))) }
    ensures end_within { IfErr result (λ end. end.lines ≤ number + length behind.now) }
{
    let mut at = number;
    let mut line = rest;
    let mut left = behind;
    'lines: loop {
        match next_word(line) {
            Some((word, after)) => {
                return Ok(WordAhead {
                    word,
                    ahead: Ahead {
                        number: at,
                        rest: after,
                        behind: left,
                    },
                });
            }
            None => {
                if left.is_empty() {
                    return Err(TextEnd { lines: at });
                }
                let (next, after) = cut_line(left);
                line = told_part(next);
                left = after;
                at += 1;
            }
        }
    }
}
