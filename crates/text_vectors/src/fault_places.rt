//! Places in a small text, the numbers and words of all kinds of fault, and the first of some sites.

use oss_base::{FaultKind, FaultSite, FirstSite, Place, Stop, place_of};
use port_types::NoMemory;

// An offset, and the line and the column of its place.
const PLACES: [(usize, u32, u32); 9] = [
    (0, 1, 1),
    (1, 1, 2),
    (2, 1, 3),
    (3, 2, 1),
    (4, 2, 2),
    (5, 3, 1),
    (6, 4, 1),
    (8, 4, 3),
    (9, 4, 4),
];

#[test]
fn places_in_a_small_text(rt: HostRuntime) {
    for (offset, line, column) in PLACES {
        assert_eq!(rt;
            place_of(b"ab\n\r\n\n  c", offset),
            Place { line, column },
            "at {offset}"
        );
    }
}

// Each kind with its number and its words, as in the table of faults.
const KINDS: [(FaultKind, u8, &str); 31] = [
    (FaultKind::F0, 0, "not built yet"),
    (FaultKind::F1, 1, "file too long"),
    (FaultKind::F2, 2, "bad byte"),
    (FaultKind::F3, 3, "syntax"),
    (FaultKind::F4, 4, "numeral too large"),
    (FaultKind::F5, 5, "nesting too deep"),
    (FaultKind::F6, 6, "component named twice"),
    (FaultKind::F7, 7, "no system component"),
    (FaultKind::F8, 8, "two system components"),
    (FaultKind::F9, 9, "name clash"),
    (FaultKind::F10, 10, "unknown component"),
    (FaultKind::F11, 11, "component contains itself"),
    (FaultKind::F12, 12, "subcomponent named twice"),
    (FaultKind::F13, 13, "unknown port"),
    (FaultKind::F14, 14, "not a connection target"),
    (FaultKind::F15, 15, "connected twice"),
    (FaultKind::F16, 16, "type mismatch"),
    (FaultKind::F17, 17, "empty range"),
    (FaultKind::F18, 18, "enumerator named twice"),
    (FaultKind::F19, 19, "unknown contract"),
    (FaultKind::F20, 20, "contract refined twice"),
    (FaultKind::F21, 21, "sub-contract listed twice"),
    (FaultKind::F22, 22, "unsupported type"),
    (FaultKind::F23, 23, "unsupported construct"),
    (FaultKind::F24, 24, "unknown subcomponent"),
    (FaultKind::F25, 25, "too many components"),
    (FaultKind::F26, 26, "too many instances"),
    (FaultKind::F27, 27, "too many sub-contracts"),
    (FaultKind::F28, 28, "level too large"),
    (FaultKind::F29, 29, "too many value bits"),
    (FaultKind::F30, 30, "too many guards"),
];

#[test]
fn numbers_and_words_of_all_kinds(rt: HostRuntime) {
    for (kind, number, text) in KINDS {
        assert_eq!(rt; kind.number(), number);
        assert_eq!(rt; kind.text(), text);
    }
    assert_eq!(rt; Stop::from(NoMemory), Stop::NoMemory);
}

#[test]
fn the_first_of_some_sites(rt: HostRuntime) {
    let mut first = FirstSite::new();
    assert_eq!(rt; first.get(), None);
    for (kind, offset) in [
        (FaultKind::F13, 7),
        (FaultKind::F9, 7),
        (FaultKind::F2, 9),
        (FaultKind::F10, 7),
    ] {
        first.note(FaultSite { kind, offset });
    }
    assert_eq!(rt;
        first.get(),
        Some(FaultSite {
            kind: FaultKind::F9,
            offset: 7
        })
    );
}
