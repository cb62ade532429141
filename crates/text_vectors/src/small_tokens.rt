//! Tokens and first faults of small texts.

use oss_base::{Fault, FaultKind, Place, Stop};
use oss_lexer::lex;
use oss_syntax::TokenKind::{Numeral, Symbol, Word};
use oss_syntax::{Token, TokenKind};

fn is_token(token: &Token, expected: (TokenKind, u32, u32)) -> bool {
    token.kind == expected.0 && token.span.start == expected.1 && token.span.end == expected.2
}

/// Texts and their tokens: the kind, the first byte and the byte after the last.
const TOKENS: [(&[u8], &[(TokenKind, u32, u32)]); 20] = [
    (b"", &[]),
    (b" \t\r\n", &[]),
    (b"COMPONENT S_1", &[(Word, 0, 9), (Word, 10, 13)]),
    (b"_ _a9", &[(Word, 0, 1), (Word, 2, 5)]),
    (b"12ab", &[(Numeral, 0, 2), (Word, 2, 4)]),
    (b"007", &[(Numeral, 0, 3)]),
    (b"1000000", &[(Numeral, 0, 7)]),
    (b"0001000000;", &[(Numeral, 0, 10), (Symbol, 10, 11)]),
    (b"<-><->", &[(Symbol, 0, 3), (Symbol, 3, 6)]),
    (b"<-a", &[(Symbol, 0, 1), (Symbol, 1, 2), (Word, 2, 3)]),
    (
        b"->>=<=<",
        &[
            (Symbol, 0, 2),
            (Symbol, 2, 4),
            (Symbol, 4, 6),
            (Symbol, 6, 7),
        ],
    ),
    (b"0..7", &[(Numeral, 0, 1), (Symbol, 1, 3), (Numeral, 3, 4)]),
    (b"...", &[(Symbol, 0, 2), (Symbol, 2, 3)]),
    (b":==", &[(Symbol, 0, 2), (Symbol, 2, 3)]),
    (b"!!=", &[(Symbol, 0, 1), (Symbol, 1, 3)]),
    (b"a--b", &[(Word, 0, 1)]),
    (b"a--b\nc", &[(Word, 0, 1), (Word, 5, 6)]),
    (b"<-->\n>", &[(Symbol, 0, 1), (Symbol, 5, 6)]),
    (b"//#\x80\r\n/ /", &[(Symbol, 6, 7), (Symbol, 8, 9)]),
    (b"-->\n--\n//", &[]),
];

#[test]
fn tokens_of_small_texts(rt: HostRuntime) {
    for (i, (text, expected)) in TOKENS.iter().enumerate() {
        match lex(rt.alloc(), text) {
            Ok(tokens) => {
                assert_eq!(rt; tokens.len(), expected.len(), "at {i}");
                for (token, wanted) in tokens.as_slice().iter().zip(expected.iter()) {
                    assert!(rt; is_token(token, *wanted), "at {i}");
                }
            }
            Err(_) => assert!(rt; false, "at {i}"),
        }
    }
}

/// Texts, and the kind, line and column of the first fault of each.
const FAULTS: [(&[u8], FaultKind, u32, u32); 12] = [
    (b"COMPONENT S# system", FaultKind::F2, 1, 12),
    (b"$", FaultKind::F2, 1, 1),
    (b"a\n\x80", FaultKind::F2, 2, 1),
    (b"\x00", FaultKind::F2, 1, 1),
    (b"-- # \r\n  #", FaultKind::F2, 2, 3),
    (b"a \"b\"", FaultKind::F2, 1, 3),
    (b"1000001", FaultKind::F4, 1, 1),
    (b"x = 01000001;", FaultKind::F4, 1, 5),
    (b"1000001 #", FaultKind::F4, 1, 1),
    (b"# 1000001", FaultKind::F2, 1, 1),
    (
        b"1000000\n9999999999999999999999999999999999999999",
        FaultKind::F4,
        2,
        1,
    ),
    (b"// 1000001\n\n  1000001", FaultKind::F4, 3, 3),
];

#[test]
fn first_faults_of_small_texts(rt: HostRuntime) {
    for (i, (text, kind, line, column)) in FAULTS.iter().enumerate() {
        let place = Place {
            line: *line,
            column: *column,
        };
        match lex(rt.alloc(), text) {
            Ok(_) => assert!(rt; false, "at {i}"),
            Err(stop) => assert!(rt; stop == Stop::Fault(Fault { kind: *kind, place }), "at {i}"),
        }
    }
}
