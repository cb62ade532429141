//! What a token is read as. Main function: `lead`. Reads the text only, and allocates nothing.

ghost use Rattle.std.specs.Prelude.{◌≡◌, ◌≤◌, length, IsTrue};
ghost use Rattle.std.specs.Char.{is_ascii_digit};
ghost use Rattle.std.specs.List.{list_all};
ghost use Rattle.std.specs.Str.{IsUtf8};
ghost use Rattle.std.specs.Str.Parse.{digits_value};
ghost use Rattle.oss_syntax.specs.Terminals.{terminal_of};
ghost use Rattle.oss_base.specs.Limits.{largest_numeral};
ghost use Rattle.oss_syntax.specs.Tokens.{text_at};
ghost use Rattle.oss_reader.specs.Leads.{lead_terminal};
ghost use Rattle.oss_reader.specs.Readable.{IsReadable};

use crate::lead::Lead;
use crate::words::{symbol_lead, word_lead};
use oss_base::Span;
use oss_syntax::{Token, TokenKind};

/// The text that a span covers.
fn text_of(bytes: &[u8], span: Span) -> &str
    requires ordered { span.start ≤ span.end }
    requires inside { span.end ≤ length bytes.now }
    requires text { IsUtf8 (text_at bytes.now span) }
    ensures { result.now ≡ text_at bytes.now span }
{
    match str::from_utf8(&bytes[span.start as usize..span.end as usize]) {
        Ok(text) => text,
        Err(_) => "",
    }
}

/// The number of a row of digits.
fn number(digits: &[u8]) -> u32
    requires digits { IsTrue (list_all is_ascii_digit digits.now) }
    requires limit { digits_value 10 digits.now ≤ largest_numeral }
    ensures { result ≡ digits_value 10 digits.now }
{
    let mut value: u32 = 0;
    for digit in digits {
        value = value * 10 + u32::from(*digit - b'0');
    }
    value
}

/// What a token is read as.
pub fn lead<'a>(bytes: &'a [u8], token: Token) -> Lead<'a>
    requires { IsReadable bytes.now token }
    ensures { lead_terminal result ≡ terminal_of bytes.now token }
{
    let span = token.span;
    match token.kind {
        TokenKind::Word => word_lead(text_of(bytes, span), span),
        TokenKind::Numeral => Lead::Numeral(
            number(&bytes[span.start as usize..span.end as usize]),
            span,
        ),
        TokenKind::Symbol => symbol_lead(text_of(bytes, span), span),
    }
}
