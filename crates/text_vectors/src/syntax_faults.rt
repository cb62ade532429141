//! Places of syntax faults, the limit on height, and how operators group, against the tables of the language.

use crate::reading::read;
use oss_base::{FaultKind, Stop};
use oss_syntax::{Expr, InterfaceItem, SpecTree};
use std::alloc::{AllocError, Global};
use std::test::Fail;

const FRONT: &[u8] = b"COMPONENT S system INTERFACE CONTRACT c assume: ";

/// The kind, line and column of the fault that a text is refused for. Want of memory counts as F0.
fn fault_of(alloc: Global, text: &[u8]) -> Option<(FaultKind, u32, u32)> {
    match read(alloc, text) {
        Ok(_) => None,
        Err(Stop::Fault(fault)) => Some((fault.kind, fault.place.line, fault.place.column)),
        Err(Stop::NoMemory) => Some((FaultKind::F0, 0, 0)),
    }
}

/// A contract with this assumption, a piece so many times, a middle and another piece so many times.
fn assuming(alloc: Global, pieces: (&[u8], usize, &[u8], &[u8])) -> Result<Vec<u8>, AllocError> {
    let (before, count, middle, behind) = pieces;
    let mut text = Vec::new(alloc);
    text.extend_from_slice(FRONT)?;
    for _ in 0..count {
        text.extend_from_slice(before)?;
    }
    text.extend_from_slice(middle)?;
    for _ in 0..count {
        text.extend_from_slice(behind)?;
    }
    text.extend_from_slice(b"; guarantee: true;")?;
    Ok(text)
}

/// Texts, and the kind, line and column of the fault that each is refused for.
const FAULTS: [(&[u8], FaultKind, u32, u32); 26] = [
    (b"COMPONENT S system", FaultKind::F3, 1, 19),
    (b"COMPONENT S system  -- a comment\n ", FaultKind::F3, 2, 2),
    (
        b"COMPONENT S system INTERFACE INPUT PORT r: real;",
        FaultKind::F22,
        1,
        44,
    ),
    (
        b"COMPONENT S system INTERFACE PARAMETER",
        FaultKind::F23,
        1,
        30,
    ),
    (
        b"COMPONENT S INTERFACE INPUT PORT r: 1..3",
        FaultKind::F3,
        1,
        41,
    ),
    (
        b"COMPONENT S INTERFACE INPUT PORT r: {};",
        FaultKind::F3,
        1,
        38,
    ),
    (
        b"COMPONENT S INTERFACE INPUT PORT r: {a,};",
        FaultKind::F3,
        1,
        40,
    ),
    (
        b"COMPONENT S INTERFACE INPUT PORT r: 1 2;",
        FaultKind::F3,
        1,
        39,
    ),
    (
        b"COMPONENT S INTERFACE CONTRACT c assume: true guarantee: true;",
        FaultKind::F3,
        1,
        47,
    ),
    (
        b"COMPONENT S INTERFACE CONTRACT c assume: a = b = c;",
        FaultKind::F3,
        1,
        48,
    ),
    (
        b"COMPONENT S INTERFACE CONTRACT c assume: in the past;",
        FaultKind::F3,
        1,
        49,
    ),
    (
        b"COMPONENT S INTERFACE CONTRACT c assume: a = not b;",
        FaultKind::F3,
        1,
        46,
    ),
    (
        b"COMPONENT S INTERFACE CONTRACT c assume: a.b;",
        FaultKind::F3,
        1,
        43,
    ),
    (
        b"COMPONENT S INTERFACE CONTRACT c assume: a * b;",
        FaultKind::F23,
        1,
        44,
    ),
    (
        b"COMPONENT S INTERFACE CONTRACT c assume: next(real);",
        FaultKind::F22,
        1,
        47,
    ),
    (
        b"COMPONENT S INTERFACE REFINEMENT CONNECTION x := next(p);",
        FaultKind::F3,
        1,
        50,
    ),
    (
        b"COMPONENT S INTERFACE REFINEMENT CONNECTION x := p until q;",
        FaultKind::F3,
        1,
        52,
    ),
    (
        b"COMPONENT S INTERFACE REFINEMENT CONNECTION x := s.;",
        FaultKind::F3,
        1,
        52,
    ),
    (
        b"COMPONENT S INTERFACE REFINEMENT CONTRACT c REFINEDBY s;",
        FaultKind::F3,
        1,
        56,
    ),
    (
        b"COMPONENT S INTERFACE REFINEMENT REFINEMENT",
        FaultKind::F3,
        1,
        34,
    ),
    (b"COMPONENT S system system INTERFACE", FaultKind::F3, 1, 20),
    (b"@requires discrete time", FaultKind::F3, 1, 20),
    (b"@requires discrete-time;;", FaultKind::F3, 1, 25),
    (b"system", FaultKind::F3, 1, 1),
    (
        b"COMPONENT S system INTERFACE CONTRACT c assume: a = b = c",
        FaultKind::F3,
        1,
        55,
    ),
    (
        b"COMPONENT S system INTERFACE CONTRACT c assume: in the past",
        FaultKind::F3,
        1,
        56,
    ),
];

#[test]
fn faults_and_their_places(rt: HostRuntime) {
    for (i, (text, kind, line, column)) in FAULTS.iter().enumerate() {
        let fault = fault_of(rt.alloc(), text);
        assert!(rt; fault == Some((*kind, *line, *column)), "at {i}: {fault:?}");
    }
}

/// Assumptions made of a piece so many times, a middle, and another piece as many times; and the fault.
const HEIGHTS: [(&[u8], usize, &[u8], &[u8], Option<(FaultKind, u32, u32)>); 10] = [
    (b"(", 127, b"true", b")", None),
    (b"(", 128, b"true", b")", Some((FaultKind::F5, 1, 176))),
    (b"true and ", 127, b"true", b"", None),
    (
        b"true and ",
        128,
        b"true",
        b"",
        Some((FaultKind::F5, 1, 1197)),
    ),
    (b"a implies ", 127, b"a", b"", None),
    (
        b"a implies ",
        128,
        b"a",
        b"",
        Some((FaultKind::F5, 1, 1321)),
    ),
    (b"not ", 127, b"a", b"", None),
    (b"not ", 128, b"a", b"", Some((FaultKind::F5, 1, 557))),
    (b"- ", 127, b"1 = 1", b"", Some((FaultKind::F5, 1, 305))),
    (b"(", 128, b"real", b")", Some((FaultKind::F5, 1, 176))),
];

#[test]
fn heights_up_to_the_limit(rt: HostRuntime) -> Result<(), Fail> {
    for (i, (before, count, middle, behind, expected)) in HEIGHTS.iter().enumerate() {
        let text = assuming(rt.alloc(), (*before, *count, *middle, *behind))?;
        let fault = fault_of(rt.alloc(), text.as_slice());
        assert!(rt; fault == *expected, "at {i}: {fault:?}");
    }
    Ok(())
}

/// A byte for each level.
const LEVELS: &[u8] = b"0123456789A";

/// The expression in postfix order: the text of each name, the level of each operator, and a dot for all else.
fn postfix(expr: &Expr, into: &mut Vec<u8>) -> Result<(), AllocError> {
    match expr {
        Expr::Name(word) => into.extend_from_slice(word.text.as_str().as_bytes()),
        Expr::Brackets(inside, _) => {
            postfix(inside.get(), into)?;
            into.extend_from_slice(b"()")
        }
        Expr::Prefix(word, operand, _) => {
            postfix(operand.get(), into)?;
            put_level(word.level(), into)
        }
        Expr::Binary(word, left, right, _) => {
            postfix(left.get(), into)?;
            postfix(right.get(), into)?;
            put_level(word.level(), into)
        }
        _ => into.extend_from_slice(b"."),
    }
}

fn put_level(level: usize, into: &mut Vec<u8>) -> Result<(), AllocError> {
    match LEVELS.get(level) {
        Some(byte) => into.extend_from_slice(&[*byte]),
        None => into.extend_from_slice(b"?"),
    }
}

/// The assumptions of all contracts in postfix order.
fn assumptions(alloc: Global, tree: &SpecTree) -> Result<Vec<u8>, AllocError> {
    let mut shown = Vec::new(alloc);
    for component in tree.as_slice() {
        for item in component.interface.as_slice() {
            if let InterfaceItem::Contract { assume, .. } = item {
                postfix(assume, &mut shown)?;
            }
        }
    }
    Ok(shown)
}

/// Assumptions, and each in postfix order.
const GROUPINGS: [(&[u8], &[u8]); 12] = [
    (b"a and b and c", b"ab7c7"),
    (b"a or b and c | d", b"abc78d8"),
    (b"a implies b -> c", b"abc99"),
    (b"a iff b <-> c", b"abAcA"),
    (b"a until b U c", b"abc66"),
    (b"not a until b & c", b"a5b6c7"),
    (b"G a implies F b", b"a5b59"),
    (b"in the future the = future", b"thefuture45"),
    (b"- x + 007 - y < z", b"x2.3y3z4"),
    (b"! x = - - y", b"xy2245"),
    (b"X next(p) != rise(q)", b"..45"),
    (b"(a or TRUE) and never b releases c", b"a.8()b5c67"),
];

#[test]
fn operators_group_by_their_levels(rt: HostRuntime) -> Result<(), Fail> {
    for (i, (text, expected)) in GROUPINGS.iter().enumerate() {
        let text = assuming(rt.alloc(), (b"", 0, *text, b""))?;
        match read(rt.alloc(), text.as_slice()) {
            Ok(tree) => {
                let shown = assumptions(rt.alloc(), &tree)?;
                assert!(rt; shown.as_slice() == *expected, "at {i}");
            }
            Err(_) => assert!(rt; false, "at {i}"),
        }
    }
    Ok(())
}

/// Texts that are read, and how many components each has.
const ACCEPTED: [(&[u8], usize); 3] = [
    (b"", 0),
    (b"@requires discrete - time; COMPONENT S INTERFACE", 1),
    (
        b"COMPONENT the INTERFACE REFINEMENT COMPONENT time system INTERFACE",
        2,
    ),
];

#[test]
fn accepted_texts(rt: HostRuntime) {
    for (i, (text, components)) in ACCEPTED.iter().enumerate() {
        match read(rt.alloc(), text) {
            Ok(tree) => assert!(rt; tree.len() == *components, "at {i}"),
            Err(_) => assert!(rt; false, "at {i}"),
        }
    }
}
