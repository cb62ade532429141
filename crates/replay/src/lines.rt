//! The lines of a text that count, and the words of a line, one after the other. Main functions: `next_line`,
//! `next_word`. They read the text only, and allocate nothing.

ghost use Rattle.std.specs.Prelude.{◌≡◌, ◌≢◌, ◌+◌, ◌<◌, ◌≤◌, ◌^◌, ◌∷◌, [], length, drop, IfOk, IfErr, IfSome, IfNone};
ghost use Rattle.std.specs.List.{position_or_len};
ghost use Rattle.std.specs.Str.Lines.{lines, strip_carriage_return};
ghost use Rattle.replay.specs.TextLines.{divides_words, words_of_line, line_counts};
ghost use Rattle.replay.specs.Reading.{is_stop, IsNextLine, IsTextEnd};

/// A byte at which a run ends: the end of a line, a blank or tab, any other byte, the end of a port's name.
#[derive(Clone, Copy, Debug, PartialEq, Eq)]
pub enum Stop {
    LineFeed,
    Gap,
    Word,
    EqualsSign,
}

/// A line that counts: its number, its bytes, and the text behind it.
#[derive(Clone, Copy, Debug)]
pub struct LineAhead<'a> {
    pub number: u32,
    pub line: &'a [u8],
    pub rest: &'a [u8],
}

/// No line is left that counts; the number is that behind the last line.
#[derive(Clone, Copy, Debug, PartialEq, Eq)]
pub struct TextEnd {
    pub number: u32,
}

fn is_gap(byte: u8) -> bool
    ensures { result ≡ divides_words byte }
{
    byte == b' ' || byte == b'\t'
}

fn stops(stop: Stop, byte: u8) -> bool
    ensures { result ≡ is_stop stop byte }
{
    match stop {
        Stop::LineFeed => byte == b'\n',
        Stop::Gap => is_gap(byte),
        Stop::Word => !is_gap(byte),
        Stop::EqualsSign => byte == b'=',
    }
}

/// How many bytes stand before the first of these.
pub fn run_len(bytes: &[u8], stop: Stop) -> usize
    ensures place { result ≡ position_or_len (is_stop stop) bytes.now }
    ensures within { result ≤ length bytes.now }
{
    for (i, byte) in bytes.iter().enumerate() {
        if stops(stop, *byte) {
            return i;
        }
    }
    bytes.len()
}

/// The next word of a line, and what comes after it.
pub fn next_word(line: &[u8]) -> Option<(&[u8], &[u8])>
    ensures some { IfSome result (λ w. words_of_line line.now ≡ w.0.now ∷ words_of_line w.1.now) }
    ensures shorter { IfSome result (λ w. length w.1.now < length line.now) }
    ensures none { IfNone result (words_of_line line.now ≡ []) }
{
    let (_, words) = line.split_at(run_len(line, Stop::Word));
    let end = run_len(words, Stop::Gap);
    if end == 0 {
        return None;
    }
    Some(words.split_at(end))
}

/// The line without the carriage return at its end.
fn without_return(line: &[u8]) -> &[u8]
    ensures { result.now ≡ strip_carriage_return line.now }
{
    match line {
        [front @ .., b'\r'] => front,
        _ => line,
    }
}

/// The first line, and what comes after it.
fn cut_line(bytes: &[u8]) -> (&[u8], &[u8])
    requires { bytes.now ≢ [] }
    ensures lines { lines bytes.now ≡ result.0.now ∷ lines result.1.now }
    ensures shorter { length result.1.now + 1 ≤ length bytes.now }
{
    let end = run_len(bytes, Stop::LineFeed);
    if end < bytes.len() {
        (without_return(&bytes[..end]), &bytes[end + 1..])
    } else {
        (bytes, &bytes[end..])
    }
}

/// Whether a line counts: it has a word and doesn't begin with `--`.
fn counts(line: &[u8]) -> bool
    ensures { result ≡ line_counts line.now }
{
    !line.starts_with(b"--") && next_word(line).is_some()
}

/// The next line that counts, in a text that begins with the line of this number.
pub fn next_line(bytes: &[u8], first: u32) -> Result<LineAhead<'_>, TextEnd>
    requires { first + length bytes.now < 2 ^ 32 }
    ensures line { IfOk result (λ l. IsNextLine bytes.now first l.number l.line.now l.rest.now) }
    ensures end { IfErr result (λ end. IsTextEnd bytes.now first end.number) }
{
    let mut number = first;
    let mut rest = bytes;
    while !rest.is_empty() {
        let (line, after) = cut_line(rest);
        if counts(line) {
            return Ok(LineAhead {
                number,
                line,
                rest: after,
            });
        }
        number += 1;
        rest = after;
    }
    Err(TextEnd { number })
}
