//! Levels of operators against the table of the language, and trees that differ in one place.

use crate::reading::read;
use oss_base::Stop;
use oss_syntax::{BinaryWord, PrefixWord, Role};
use std::alloc::Global;
use std::test::Fail;

/// Operators with their level and the loosest levels of their left and right operands.
const OPERATORS: [(BinaryWord, usize, usize, usize); 14] = [
    (BinaryWord::Plus, 3, 3, 2),
    (BinaryWord::Minus, 3, 3, 2),
    (BinaryWord::Equal, 4, 3, 3),
    (BinaryWord::NotEqual, 4, 3, 3),
    (BinaryWord::Less, 4, 3, 3),
    (BinaryWord::AtMost, 4, 3, 3),
    (BinaryWord::Greater, 4, 3, 3),
    (BinaryWord::AtLeast, 4, 3, 3),
    (BinaryWord::Until, 6, 5, 6),
    (BinaryWord::Releases, 6, 5, 6),
    (BinaryWord::And, 7, 7, 6),
    (BinaryWord::Or, 8, 8, 7),
    (BinaryWord::Implies, 9, 8, 9),
    (BinaryWord::Iff, 10, 10, 9),
];

/// Words before an operand with their level, and whether a connection may have them.
const PREFIXES: [(PrefixWord, usize, bool); 6] = [
    (PrefixWord::Minus, 2, true),
    (PrefixWord::Not, 5, true),
    (PrefixWord::Always, 5, false),
    (PrefixWord::Never, 5, false),
    (PrefixWord::Future, 5, false),
    (PrefixWord::Then, 5, false),
];

#[test]
fn levels_of_operators(rt: HostRuntime) {
    for (word, level, left, right) in OPERATORS.iter() {
        assert_eq!(rt; word.level(), *level);
        assert_eq!(rt; word.left_level(), *left);
        assert_eq!(rt; word.right_level(), *right);
        assert!(rt; word.is_allowed(Role::Formula));
        assert_eq!(rt; word.is_allowed(Role::State), *level != 6);
    }
}

#[test]
fn levels_of_words_before_an_operand(rt: HostRuntime) {
    for (word, level, in_connections) in PREFIXES.iter() {
        assert_eq!(rt; word.level(), *level);
        assert!(rt; word.is_allowed(Role::Formula));
        assert_eq!(rt; word.is_allowed(Role::State), *in_connections);
    }
}

/// Pairs of texts whose trees differ in one place.
const DIFFERENT: [(&[u8], &[u8]); 36] = [
    (b"COMPONENT S INTERFACE", b"COMPONENT T INTERFACE"),
    (b"COMPONENT S INTERFACE", b"COMPONENT S system INTERFACE"),
    (
        b"COMPONENT S INTERFACE",
        b"COMPONENT S INTERFACE REFINEMENT",
    ),
    (b"COMPONENT S INTERFACE", b""),
    (
        b"COMPONENT S INTERFACE INPUT PORT n: 0..3;",
        b"COMPONENT S INTERFACE OUTPUT PORT n: 0..3;",
    ),
    (
        b"COMPONENT S INTERFACE INPUT PORT n: 0..3;",
        b"COMPONENT S INTERFACE INPUT PORT m: 0..3;",
    ),
    (
        b"COMPONENT S INTERFACE INPUT PORT n: 0..3;",
        b"COMPONENT S INTERFACE INPUT PORT n: -0..3;",
    ),
    (
        b"COMPONENT S INTERFACE INPUT PORT n: 0..3;",
        b"COMPONENT S INTERFACE INPUT PORT n: 0..4;",
    ),
    (
        b"COMPONENT S INTERFACE INPUT PORT n: {red, green};",
        b"COMPONENT S INTERFACE INPUT PORT n: {red, blue};",
    ),
    (
        b"COMPONENT S INTERFACE INPUT PORT n: {red, green};",
        b"COMPONENT S INTERFACE INPUT PORT n: {red};",
    ),
    (
        b"COMPONENT S INTERFACE INPUT PORT n: {red};",
        b"COMPONENT S INTERFACE INPUT PORT n: boolean;",
    ),
    (
        b"COMPONENT S INTERFACE INPUT PORT n: event;",
        b"COMPONENT S INTERFACE INPUT PORT n: boolean;",
    ),
    (
        b"COMPONENT S INTERFACE CONTRACT c assume: true; guarantee: a;",
        b"COMPONENT S INTERFACE CONTRACT d assume: true; guarantee: a;",
    ),
    (
        b"COMPONENT S INTERFACE CONTRACT c assume: true; guarantee: a;",
        b"COMPONENT S INTERFACE CONTRACT c assume: false; guarantee: a;",
    ),
    (
        b"COMPONENT S INTERFACE CONTRACT c assume: true; guarantee: a;",
        b"COMPONENT S INTERFACE CONTRACT c assume: true; guarantee: b;",
    ),
    (
        b"COMPONENT S INTERFACE CONTRACT c assume: true; guarantee: not a;",
        b"COMPONENT S INTERFACE CONTRACT c assume: true; guarantee: then a;",
    ),
    (
        b"COMPONENT S INTERFACE CONTRACT c assume: true; guarantee: not a;",
        b"COMPONENT S INTERFACE CONTRACT c assume: true; guarantee: not b;",
    ),
    (
        b"COMPONENT S INTERFACE CONTRACT c assume: true; guarantee: a and b;",
        b"COMPONENT S INTERFACE CONTRACT c assume: true; guarantee: a or b;",
    ),
    (
        b"COMPONENT S INTERFACE CONTRACT c assume: true; guarantee: a and b;",
        b"COMPONENT S INTERFACE CONTRACT c assume: true; guarantee: c and b;",
    ),
    (
        b"COMPONENT S INTERFACE CONTRACT c assume: true; guarantee: a and b;",
        b"COMPONENT S INTERFACE CONTRACT c assume: true; guarantee: a and c;",
    ),
    (
        b"COMPONENT S INTERFACE CONTRACT c assume: true; guarantee: (a);",
        b"COMPONENT S INTERFACE CONTRACT c assume: true; guarantee: a;",
    ),
    (
        b"COMPONENT S INTERFACE CONTRACT c assume: true; guarantee: next(a);",
        b"COMPONENT S INTERFACE CONTRACT c assume: true; guarantee: rise(a);",
    ),
    (
        b"COMPONENT S INTERFACE CONTRACT c assume: true; guarantee: next(a);",
        b"COMPONENT S INTERFACE CONTRACT c assume: true; guarantee: next(b);",
    ),
    (
        b"COMPONENT S INTERFACE CONTRACT c assume: true; guarantee: a = 1;",
        b"COMPONENT S INTERFACE CONTRACT c assume: true; guarantee: a = 2;",
    ),
    (
        b"COMPONENT S INTERFACE REFINEMENT SUB s: T;",
        b"COMPONENT S INTERFACE REFINEMENT SUB t: T;",
    ),
    (
        b"COMPONENT S INTERFACE REFINEMENT SUB s: T;",
        b"COMPONENT S INTERFACE REFINEMENT SUB s: V;",
    ),
    (
        b"COMPONENT S INTERFACE REFINEMENT CONNECTION a := b;",
        b"COMPONENT S INTERFACE REFINEMENT CONNECTION s.a := b;",
    ),
    (
        b"COMPONENT S INTERFACE REFINEMENT CONNECTION s.a := b;",
        b"COMPONENT S INTERFACE REFINEMENT CONNECTION t.a := b;",
    ),
    (
        b"COMPONENT S INTERFACE REFINEMENT CONNECTION s.a := b;",
        b"COMPONENT S INTERFACE REFINEMENT CONNECTION s.c := b;",
    ),
    (
        b"COMPONENT S INTERFACE REFINEMENT CONNECTION a := s.b;",
        b"COMPONENT S INTERFACE REFINEMENT CONNECTION a := t.b;",
    ),
    (
        b"COMPONENT S INTERFACE REFINEMENT CONNECTION a := s.b;",
        b"COMPONENT S INTERFACE REFINEMENT CONNECTION a := s.c;",
    ),
    (
        b"COMPONENT S INTERFACE REFINEMENT CONNECTION a := s.b;",
        b"COMPONENT S INTERFACE REFINEMENT CONNECTION a := b;",
    ),
    (
        b"COMPONENT S INTERFACE REFINEMENT CONTRACT c REFINEDBY s.d;",
        b"COMPONENT S INTERFACE REFINEMENT CONTRACT e REFINEDBY s.d;",
    ),
    (
        b"COMPONENT S INTERFACE REFINEMENT CONTRACT c REFINEDBY s.d;",
        b"COMPONENT S INTERFACE REFINEMENT CONTRACT c REFINEDBY t.d;",
    ),
    (
        b"COMPONENT S INTERFACE REFINEMENT CONTRACT c REFINEDBY s.d;",
        b"COMPONENT S INTERFACE REFINEMENT CONTRACT c REFINEDBY s.e;",
    ),
    (
        b"COMPONENT S INTERFACE REFINEMENT CONTRACT c REFINEDBY s.d;",
        b"COMPONENT S INTERFACE REFINEMENT CONTRACT c REFINEDBY s.d, s.e;",
    ),
];

/// A text, and one of the same tree with other places.
const TEXT: &[u8] =
    b"COMPONENT S system INTERFACE INPUT PORT n: -0..3; INPUT PORT light: {red, green};
CONTRACT c assume: true; guarantee: not (a and next(b));
REFINEMENT SUB s: T; CONNECTION s.d := t.e or f; CONTRACT c REFINEDBY s.g, u.h;";

const ELSEWHERE: &[u8] = b"-- moved
COMPONENT  S  system  INTERFACE  INPUT PORT n :-0 .. 3;INPUT PORT light:{red,green};
CONTRACT c assume:TRUE;guarantee:!(a & next ( b ));
REFINEMENT SUB s:T;CONNECTION s.d:=t.e | f;CONTRACT c REFINEDBY s.g,u.h;
";

/// Whether the trees of two texts are the same; none where the one says so and the other does not.
fn are_same(alloc: Global, text: &[u8], other: &[u8]) -> Result<Option<bool>, Stop> {
    let tree = read(alloc, text)?;
    let moved = read(alloc, other)?;
    let same = tree.same(&moved);
    Ok(if moved.same(&tree) == same {
        Some(same)
    } else {
        None
    })
}

#[test]
fn trees_that_differ_in_one_place(rt: HostRuntime) -> Result<(), Fail> {
    for (i, (text, other)) in DIFFERENT.iter().enumerate() {
        let same = are_same(rt.alloc(), text, other)?;
        assert!(rt; same == Some(false), "at {i}");
    }
    Ok(())
}

#[test]
fn a_tree_at_other_places(rt: HostRuntime) -> Result<(), Fail> {
    let same = are_same(rt.alloc(), TEXT, ELSEWHERE)?;
    assert!(rt; same == Some(true));
    Ok(())
}
