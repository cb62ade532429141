//! Shelves in memory, one that never fails and one on which chosen calls fail. They touch nothing
//! outside.

ghost use Rattle.std.specs.Prelude.{◌≡◌, ◌↔◌, ◌⊎◌, ◌+◌, ◌^◌, ◌<◌, List, ℕ, [], length, min, take, drop, Contains};
ghost use Rattle.std.specs.Prelude.{Some, None, is_some, IsTrue, IsOk, IsErr, IfOk, OnOk, OnErr, if◌then◌else◌};
ghost use Rattle.std.specs.Prelude.{is_ok};
ghost use Rattle.std.specs.Io.{ReadsAtMost};
ghost use Rattle.std.specs.Io.KnownBytes.{IsAtEnd, ReadConsumes};
ghost use Rattle.oss_io.specs.Outside.{HasCause};
ghost use Rattle.port_types.specs.Counts.{next_count};
ghost use Rattle.oss_io.specs.Stored.{file_place, bytes_from, bytes_or_empty, file_bytes};

use crate::lists::{Files, Numbers, is_listed};
use crate::outside::{Failed, Shelf};
use port_types::{Bytes, Name};

// The place of the first file of this name.
fn place(files: &[(Name, Bytes)], name: &str) -> Option<usize>
    ensures { result ≡ file_place files.now name.now }
{
    files.iter().position(|file| file.0.as_str() == name)
}

// The bytes of a place from an offset on.
fn rest(files: &[(Name, Bytes)], place: Option<usize>, offset: usize) -> &[u8]
    ensures bytes { result.now ≡ bytes_from files.now place offset }
    ensures fits { offset + length result.now < 2 ^ 64 }
{
    let Some(place) = place else {
        return &[];
    };
    let Some(file) = files.get(place) else {
        return &[];
    };
    let bytes = file.1.as_slice();
    if offset < bytes.len() {
        &bytes[offset..]
    } else {
        &[]
    }
}

/// A shelf in memory on which no call ever fails. A name that is not held reads as empty.
#[derive(Debug, Drop)]
pub struct SteadyShelf {
    files: Files,
    place: Option<usize>,
    offset: usize,
}

impl SteadyShelf {
    ghost use Rattle.oss_io.specs.Shelves.{steady_files, steady_left};

    /// A shelf with these files, of which none is open yet. Of two files of one name the first counts.
    pub fn new(files: Files) -> SteadyShelf
        ensures files { steady_files result ≡ files }
        ensures left { steady_left result ≡ [] }
    {
        SteadyShelf {
            files,
            place: None,
            offset: 0,
        }
    }

    // Begins to read the file of this name, and says whether there is one.
    fn begin(&mut self, name: &str) -> bool
        ensures found { result ≡ is_some (file_place (steady_files self.old) name.now) }
        ensures left { steady_left self.new ≡ bytes_or_empty (steady_files self.old) name.now }
        ensures files { steady_files self.new ≡ steady_files self.old }
    {
        self.place = place(self.files.as_slice(), name);
        self.offset = 0;
        self.place.is_some()
    }

    // Leaves nothing to read.
    fn close(&mut self)
        ensures left { steady_left self.new ≡ [] }
        ensures files { steady_files self.new ≡ steady_files self.old }
    {
        self.place = None;
    }

    // Gives as many of the bytes that are left as there is room for.
    fn give(&mut self, into: &mut [u8]) -> usize
        ensures count { result ≡ min (length into.old) (length (steady_left self.old)) }
        ensures bytes { take result into.new ≡ take result (steady_left self.old) }
        ensures left { steady_left self.new ≡ drop result (steady_left self.old) }
        ensures files { steady_files self.new ≡ steady_files self.old }
    {
        let bytes = rest(self.files.as_slice(), self.place, self.offset);
        let count = into.len().min(bytes.len());
        into[..count].copy_from_slice(&bytes[..count]);
        self.offset += count;
        count
    }
}

impl Shelf for SteadyShelf {
    ghost use Rattle.oss_io.specs.Shelves.{steady_files, steady_left};

    ghost held = { λ s name. Some (bytes_or_empty (steady_files s) name) };

    ghost left = { λ s. Some (steady_left s) };

    ghost faults = { λ _. 0 };

    ghost admits = { λ _ _. Unit {0} };

    fn open(&mut self, name: &str) -> Result<(), Failed>
        ensures never_fails { IsOk result }
        ensures left { steady_left self.new ≡ bytes_or_empty (steady_files self.old) name.now }
        ensures files { steady_files self.new ≡ steady_files self.old }
    {
        self.begin(name);
        Ok(())
    }

    fn read(&mut self, into: &mut [u8]) -> Result<usize, Failed>
        ensures never_fails { IsOk result }
        ensures count { IfOk result (λ n. n ≡ min (length into.old) (length (steady_left self.old))) }
        ensures left { IfOk result (λ n. steady_left self.new ≡ drop n (steady_left self.old)) }
        ensures files { steady_files self.new ≡ steady_files self.old }

        // what the trait says
        ensures within { ReadsAtMost result into.new }
        ensures bytes { ReadConsumes (Some (steady_left self.old)) (Some (steady_left self.new)) result into.new }
    {
        Ok(self.give(into))
    }
}

/// A shelf in memory on which chosen calls fail.
#[derive(Debug, Drop)]
pub struct MemoryShelf {
    shelf: SteadyShelf,
    failing: Numbers,
    piece: usize,
    calls: u64,
    faults: u64,
    ghost some: { 0 < piece },
}

impl MemoryShelf {
    ghost use Rattle.oss_io.specs.Shelves.{shelf_files, shelf_left, shelf_failing, shelf_piece, shelf_calls};
    ghost use Rattle.oss_io.specs.Shelves.{shelf_faults, IsSameShelf};

    /// A shelf with these files, of which none is open yet. Calls of `open` and `read` are counted
    /// together from 1: those of a number in `failing` fail, and so does `open` of a name that is
    /// not held. A read gives at most `piece` bytes.
    pub fn new(files: Files, failing: Numbers, piece: usize) -> MemoryShelf
        requires { 0 < piece }
        ensures files { shelf_files result ≡ files }
        ensures failing { shelf_failing result ≡ failing }
        ensures piece { shelf_piece result ≡ piece }
        ensures left { shelf_left result ≡ [] }
        ensures calls { shelf_calls result ≡ 0 }
        ensures faults { shelf_faults result ≡ 0 }
    {
        MemoryShelf {
            shelf: SteadyShelf::new(files),
            failing,
            piece,
            calls: 0,
            faults: 0,
        }
    }

    // Counts a call, and says whether it is one of those that fail.
    fn count_call(&mut self) -> bool
        ensures listed { IsTrue result ↔ Contains (shelf_failing self.old) (next_count (shelf_calls self.old)) }
        ensures calls { shelf_calls self.new ≡ next_count (shelf_calls self.old) }
        ensures faults { shelf_faults self.new ≡ shelf_faults self.old }
        ensures left { shelf_left self.new ≡ shelf_left self.old }
        ensures same { IsSameShelf self.old self.new }
    {
        self.calls = self.calls.saturating_add(1);
        is_listed(self.failing.as_slice(), self.calls)
    }
}

impl Shelf for MemoryShelf {
    ghost use Rattle.oss_io.specs.Shelves.{shelf_files, shelf_left, shelf_failing, shelf_calls, shelf_faults};
    ghost use Rattle.oss_io.specs.Shelves.{shelf_piece, IsSameShelf};

    ghost held = { λ s name. file_bytes (shelf_files s) name };

    ghost left = { λ s. Some (shelf_left s) };

    ghost faults = { λ s. shelf_faults s };

    ghost admits = { λ _ _. Unit {0} };

    fn open(&mut self, name: &str) -> Result<(), Failed>
        ensures fails { IsErr result ↔ (Contains (shelf_failing self.old) (next_count (shelf_calls self.old))
            ⊎ (file_bytes (shelf_files self.old) name.now ≡ None)) }
        ensures calls { shelf_calls self.new ≡ next_count (shelf_calls self.old) }
        ensures faults { shelf_faults self.new
            ≡ (if is_ok result then shelf_faults self.old else next_count (shelf_faults self.old)) }
        ensures same { IsSameShelf self.old self.new }

        // what the trait says
        ensures begins { OnOk result (Some (shelf_left self.new) ≡ file_bytes (shelf_files self.old) name.now) }
        ensures nothing_left { OnErr result (IsAtEnd (Some (shelf_left self.new))) }
        ensures cause { HasCause (shelf_faults self.old) (shelf_faults self.new) result }
    {
        let listed = self.count_call();
        let found = self.shelf.begin(name);
        if found && !listed {
            return Ok(());
        }
        self.shelf.close();
        self.faults = self.faults.saturating_add(1);
        Err(Failed)
    }

    fn read(&mut self, into: &mut [u8]) -> Result<usize, Failed>
        ensures fails { IsErr result ↔ Contains (shelf_failing self.old) (next_count (shelf_calls self.old)) }
        ensures count { IfOk result (λ n.
            n ≡ min (min (length into.old) (shelf_piece self.old)) (length (shelf_left self.old))) }
        ensures left { IfOk result (λ n. shelf_left self.new ≡ drop n (shelf_left self.old)) }
        ensures calls { shelf_calls self.new ≡ next_count (shelf_calls self.old) }
        ensures faults { shelf_faults self.new
            ≡ (if is_ok result then shelf_faults self.old else next_count (shelf_faults self.old)) }
        ensures same { IsSameShelf self.old self.new }

        // what the trait says
        ensures within { ReadsAtMost result into.new }
        ensures bytes { ReadConsumes (Some (shelf_left self.old)) (Some (shelf_left self.new)) result into.new }
        ensures unread { OnErr result (Some (shelf_left self.new) ≡ Some (shelf_left self.old)) }
        ensures cause { HasCause (shelf_faults self.old) (shelf_faults self.new) result }
    {
        if self.count_call() {
            self.faults = self.faults.saturating_add(1);
            return Err(Failed);
        }
        let most = into.len().min(self.piece);
        Ok(self.shelf.give(&mut into[..most]))
    }
}
