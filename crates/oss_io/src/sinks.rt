//! Sinks in memory, one with a room and chosen failures and one that only counts. They touch
//! nothing outside.

ghost use Rattle.std.specs.Prelude.{◌≡◌, ◌↔◌, ◌⊎◌, ◌<◌, ◌≤◌, ◌+◌, ◌-◌, ◌^◌, [], length, min, if◌then◌else◌, is_ok};
ghost use Rattle.std.specs.Prelude.{Contains, Some, None, IsErr, IfOk, OnOk, OnErr, vec_len, vec_capacity};
ghost use Rattle.std.specs.Io.KnownBytes.{WriteAppends};
ghost use Rattle.oss_io.specs.Outside.{HasCause, Takes};
ghost use Rattle.port_types.specs.Counts.{next_count};

use crate::lists::{Numbers, is_listed};
use crate::outside::{Failed, Sink};
use port_types::NoMemory;
use std::alloc::Global;
use std::marker::Model;

/// A sink in memory with a room of its own, on which chosen writes fail.
#[derive(Debug, Drop)]
pub struct MemorySink {
    taken: Vec<u8>,
    room: usize,
    failing: Numbers,
    piece: usize,
    writes: u64,
    faults: u64,
    ghost within: { vec_len taken ≤ room },
    ghost reserved: { room ≤ vec_capacity taken },
    ghost some: { 0 < piece },
}

impl MemorySink {
    ghost use Rattle.oss_io.specs.MemorySink.{sink_taken, sink_room, sink_failing, sink_piece, sink_writes};
    ghost use Rattle.oss_io.specs.MemorySink.{sink_faults};

    /// A sink with room for so many bytes, which it takes now: a write takes no memory. Writes are
    /// counted from 1. A write of a piece that is not empty fails where its number is in `failing`
    /// or no room is left, and takes at most `piece` bytes.
    pub fn new(
        alloc: Global,
        room: usize,
        failing: Numbers,
        piece: usize,
    ) -> Result<MemorySink, NoMemory>
        requires { 0 < piece }
        ensures taken { IfOk result (λ sink. sink_taken sink ≡ []) }
        ensures room { IfOk result (λ sink. sink_room sink ≡ room) }
        ensures failing { IfOk result (λ sink. sink_failing sink ≡ failing) }
        ensures piece { IfOk result (λ sink. sink_piece sink ≡ piece) }
        ensures writes { IfOk result (λ sink. sink_writes sink ≡ 0) }
        ensures faults { IfOk result (λ sink. sink_faults sink ≡ 0) }
    {
        Ok(MemorySink {
            taken: Vec::with_capacity(alloc, room)?,
            room,
            failing,
            piece,
            writes: 0,
            faults: 0,
        })
    }

    /// The bytes that were taken so far.
    pub fn taken(&self) -> &[u8]
        ensures { result.now ≡ sink_taken self.now }
    {
        self.taken.as_slice()
    }
}

impl Sink for MemorySink {
    ghost use Rattle.oss_io.specs.MemorySink.{sink_taken, sink_room, sink_failing, sink_piece, sink_writes};
    ghost use Rattle.oss_io.specs.MemorySink.{sink_faults, IsSameSink};

    ghost taken = { λ s. Some (sink_taken s) };

    ghost faults = { λ s. sink_faults s };

    fn write(&mut self, piece: &[u8]) -> Result<usize, Failed>
        ensures fails { IsErr result ↔ ((0 < length piece.now)
            × (Contains (sink_failing self.old) (next_count (sink_writes self.old))
            ⊎ (length (sink_taken self.old) ≡ sink_room self.old))) }
        ensures amount { IfOk result (λ n. n
            ≡ min (min (length piece.now) (sink_piece self.old)) (sink_room self.old - length (sink_taken self.old))) }
        ensures writes { sink_writes self.new ≡ next_count (sink_writes self.old) }
        ensures faults { sink_faults self.new
            ≡ (if is_ok result then sink_faults self.old else next_count (sink_faults self.old)) }
        ensures same { IsSameSink self.old self.new }

        // what the trait says
        ensures count { IfOk result (λ n. Takes n (length piece.now)) }
        ensures bytes { WriteAppends (Some (sink_taken self.old)) (Some (sink_taken self.new)) result piece.now }
        ensures untaken { OnErr result (Some (sink_taken self.new) ≡ Some (sink_taken self.old)) }
        ensures empty { piece.now ≡ [] → result ≡ Ok 0 }
        ensures cause { HasCause (sink_faults self.old) (sink_faults self.new) result }
    {
        self.writes = self.writes.saturating_add(1);
        if piece.is_empty() {
            return Ok(0);
        }
        let free = self.room - self.taken.len();
        if free == 0 || is_listed(self.failing.as_slice(), self.writes) {
            self.faults = self.faults.saturating_add(1);
            return Err(Failed);
        }
        let count = piece.len().min(self.piece).min(free);
        self.taken.extend_from_slice(&piece[..count]).unwrap();
        Ok(count)
    }
}

/// A sink that takes every piece whole and keeps the number of bytes alone. Contracts see that
/// number, which stays at the end of its type once it is there.
#[derive(Debug, Drop)]
pub struct CountingSink {
    total: u64,
}

impl Model for CountingSink {
    ghost use Rattle.std.specs.Prelude.{ℕ};

    ghost Value = { ℕ };

    ghost view = { λ s. s.total };
}

impl CountingSink {
    pub fn new() -> CountingSink
        ensures { result ≡ 0 }
    {
        CountingSink { total: 0 }
    }

    /// The number of bytes taken so far.
    pub fn total(&self) -> u64
        ensures { result ≡ self.now }
    {
        self.total
    }
}

impl Sink for CountingSink {
    ghost taken = { λ _. None };

    ghost faults = { λ _. 0 };

    fn write(&mut self, piece: &[u8]) -> Result<usize, Failed>
        ensures whole { result ≡ Ok (length piece.now) }
        ensures total { self.new ≡ min (self.old + length piece.now) (2 ^ 64 - 1) }
    {
        self.total = self.total.saturating_add(piece.len() as u64);
        Ok(piece.len())
    }
}
