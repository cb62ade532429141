//! Reads and writes with a failing call at each place, in memory and on real files and streams.

use super::*;
use port_types::{Bytes, Name, NoMemory};
use std::alloc::Global;
use std::fs;
use std::test::Fail;

// A text of 33 bytes.
const TEXT: &[u8] = b"the text of a file, of 33 bytes.\n";

fn name(alloc: Global, text: &str) -> Result<Name, NoMemory> {
    Name::new(alloc, text)
}

fn bytes(alloc: Global, bytes: &[u8]) -> Result<Bytes, NoMemory> {
    Ok(Bytes::from_vec(bytes.to_vec(alloc)?))
}

// A file `a` with the text above, another one of that name, and an empty file.
fn files(alloc: Global) -> Result<Files, NoMemory> {
    let mut files = Files::new(alloc);
    files.push((name(alloc, "a")?, bytes(alloc, TEXT)?))?;
    files.push((name(alloc, "a")?, bytes(alloc, b"second")?))?;
    files.push((name(alloc, "empty")?, bytes(alloc, b"")?))?;
    Ok(files)
}

// No number where it is 0.
fn numbers(alloc: Global, number: u64) -> Result<Numbers, NoMemory> {
    let mut numbers = Numbers::new(alloc);
    if number > 0 {
        numbers.push(number)?;
    }
    Ok(numbers)
}

// The number that stands for the outcome, and the bytes that were read.
fn outcome(got: Result<Bytes, ReadStop>, alloc: Global) -> (u8, Vec<u8>) {
    match got {
        Ok(bytes) => (0, bytes.into_vec()),
        Err(ReadStop::Failed) => (1, Vec::new(alloc)),
        Err(ReadStop::TooLong) => (2, Vec::new(alloc)),
        Err(ReadStop::NoMemory) => (3, Vec::new(alloc)),
    }
}

// The piece, the name, the call that fails, the limit, and the number of the outcome.
const READS: [(usize, &str, u64, usize, u8); 12] = [
    (1, "a", 0, 33, 0),
    (16, "a", 0, 33, 0),
    (100, "a", 0, 33, 0),
    (16, "a", 0, 32, 2),
    (100, "a", 0, 32, 2),
    (1, "empty", 0, 1, 0),
    (1, "b", 0, 33, 1),
    (16, "a", 1, 33, 1),
    (16, "a", 3, 33, 1),
    (100, "a", 3, 33, 1),
    (16, "a", 5, 33, 1),
    (16, "a", 6, 33, 0),
];

#[test]
fn a_file_is_read_whole_or_not_at_all(rt: HostRuntime) -> Result<(), Fail> {
    let alloc = rt.alloc();
    for (piece, name, failing, limit, want) in READS {
        assert!(rt; piece > 0 && limit > 0 && limit <= 536_870_912);
        let mut shelf = MemoryShelf::new(files(alloc)?, numbers(alloc, failing)?, piece);
        let got = read_all(alloc, &mut shelf, name, limit);
        let (number, bytes) = outcome(got, alloc);
        assert_eq!(rt;
            number,
            want,
            "piece {piece}, call {failing}, limit {limit}"
        );
        let text = if want == 0 && name == "a" { TEXT } else { b"" };
        assert_eq!(rt; bytes.as_slice(), text);
    }
    Ok(())
}

#[test]
fn a_failed_read_takes_nothing(rt: HostRuntime) -> Result<(), Fail> {
    let alloc = rt.alloc();
    let mut shelf = MemoryShelf::new(files(alloc)?, numbers(alloc, 3)?, 16);
    let mut into = [0; 4];
    assert_eq!(rt; shelf.read(&mut into), Ok(0));
    assert_eq!(rt; shelf.open("a"), Ok(()));
    assert_eq!(rt; shelf.read(&mut into), Err(Failed));
    assert_eq!(rt; shelf.read(&mut into), Ok(4));
    assert_eq!(rt; into.as_slice(), b"the ".as_slice());
    assert_eq!(rt; shelf.open("b"), Err(Failed));
    assert_eq!(rt; shelf.read(&mut into), Ok(0));
    Ok(())
}

#[test]
fn a_steady_shelf_reads_a_missing_name_as_empty(rt: HostRuntime) -> Result<(), Fail> {
    let alloc = rt.alloc();
    let mut shelf = SteadyShelf::new(files(alloc)?);
    for (name, want) in [("a", TEXT), ("b", b"".as_slice())] {
        let (number, bytes) = outcome(read_all(alloc, &mut shelf, name, 100), alloc);
        assert_eq!(rt; number, 0);
        assert_eq!(rt; bytes.as_slice(), want);
    }
    Ok(())
}

// The largest specification that is read, of 4,194,304 bytes.
#[test]
fn a_large_file_is_read(rt: HostRuntime) -> Result<(), Fail> {
    let alloc = rt.alloc();
    let mut text = Vec::new(alloc);
    text.resize(4_194_304, b'x')?;
    let mut files = Files::new(alloc);
    files.push((name(alloc, "large")?, Bytes::from_vec(text)))?;
    let mut shelf = SteadyShelf::new(files);
    let (number, bytes) = outcome(read_all(alloc, &mut shelf, "large", 4_194_304), alloc);
    assert_eq!(rt; number, 0);
    assert_eq!(rt; bytes.len(), 4_194_304);
    let (number, _) = outcome(read_all(alloc, &mut shelf, "large", 4_194_303), alloc);
    assert_eq!(rt; number, 2);
    Ok(())
}

// The piece, the room, the write that fails, and how many bytes are taken of six.
const WRITES: [(usize, usize, u64, usize); 9] = [
    (1, 6, 0, 6),
    (16, 6, 0, 6),
    (1, 5, 0, 5),
    (16, 5, 0, 5),
    (1, 0, 0, 0),
    (1, 6, 3, 2),
    (16, 6, 1, 0),
    (4, 6, 2, 4),
    (6, 6, 2, 6),
];

#[test]
fn a_sink_gets_the_whole_or_a_front(rt: HostRuntime) -> Result<(), Fail> {
    let alloc = rt.alloc();
    for (piece, room, failing, want) in WRITES {
        assert!(rt; piece > 0 && want <= 6);
        let mut sink = MemorySink::new(alloc, room, numbers(alloc, failing)?, piece)?;
        let got = write_all(&mut sink, b"proved");
        assert_eq!(rt;
            got.is_ok(),
            want == 6,
            "piece {piece}, room {room}, write {failing}"
        );
        assert_eq!(rt; sink.taken(), &b"proved"[..want]);
        // an empty piece is taken even where no room is left
        assert_eq!(rt; sink.write(b""), Ok(0));
    }
    let mut sink = CountingSink::new();
    assert!(rt; write_all(&mut sink, b"proved").is_ok());
    assert_eq!(rt; sink.total(), 6);
    Ok(())
}

// A path, the limit, and the number of the outcome.
const FILES: [(&str, usize, u8); 5] = [
    ("real.oss", 33, 0),
    ("real.oss", 32, 2),
    ("missing.oss", 33, 1),
    (".", 33, 1),
    ("real.oss", 33, 0),
];

#[test]
fn real_files_are_read(rt: HostRuntime) -> Result<(), Fail> {
    let alloc = rt.alloc();
    fs::write(&rt, "real.oss", TEXT)?;
    let mut shelf = FileShelf::new(&rt);
    let mut into = [0; 4];
    assert_eq!(rt; shelf.read(&mut into), Ok(0));
    // a file that is there, one that is not, a folder, and the first one again
    for (name, limit, want) in FILES {
        assert!(rt; limit > 0 && limit <= 536_870_912);
        let (number, bytes) = outcome(read_all(alloc, &mut shelf, name, limit), alloc);
        assert_eq!(rt; number, want, "{name}, limit {limit}");
        let text = if want == 0 { TEXT } else { b"" };
        assert_eq!(rt; bytes.as_slice(), text);
    }
    Ok(())
}

#[test]
fn real_streams_are_written(rt: HostRuntime) {
    let mut out = StdSink::new(&rt);
    let mut err = ErrSink::new(&rt);
    assert_eq!(rt; out.write(b""), Ok(0));
    assert_eq!(rt; err.write(b""), Ok(0));
    assert!(rt; write_all(&mut out, b"standard output\n").is_ok());
    assert!(rt; write_all(&mut err, b"standard error\n").is_ok());
}

#[test]
fn the_words_of_the_process_can_be_had(rt: HostRuntime) {
    assert!(rt; argument_words(rt.alloc(), &rt).is_ok());
}
