//! The world outside as traits: a shelf of named files, and a sink. Their calls touch what the
//! implementing type stands for.

ghost use Rattle.std.specs.Prelude.{◌≡◌, ◌↔◌, List, ℕ, Option, [], length, IfOk, OnOk, OnErr};
ghost use Rattle.std.specs.Io.{ReadsAtMost};
ghost use Rattle.std.specs.Io.KnownBytes.{IsAtEnd, ReadConsumes, WriteAppends};
ghost use Rattle.oss_io.specs.Outside.{HasCause, Takes};

/// A call on the world outside failed.
#[derive(Clone, Copy, Debug, PartialEq, Eq)]
pub struct Failed;

/// A shelf of named files, of which one at a time is read from its beginning to its end.
pub trait Shelf {
    /// The bytes of a name, None where they are not told.
    ghost held: { Self → List ℕ → Option (List ℕ) };

    /// The bytes of the open file that are still to come, None where they are not told.
    ghost left: { Self → Option (List ℕ) };

    /// How often a call failed.
    ghost faults: { Self → ℕ };

    /// Whether a name may be opened.
    ghost admits: { Self → List ℕ → Type 0 };

    /// Begins to read the file of this name. After a failure nothing is left to read.
    fn open(&mut self, name: &str) -> Result<(), Failed>
        requires admits { admits self.old name.now }

        ensures begins { OnOk result (left self.new ≡ held self.old name.now) }
        ensures nothing_left { OnErr result (IsAtEnd (left self.new)) }

        ensures held { (n : List ℕ) → held self.new n ≡ held self.old n }
        ensures admits { (n : List ℕ) → admits self.old n ↔ admits self.new n }
        ensures cause { HasCause (faults self.old) (faults self.new) result };

    /// Reads some of the bytes that are left into the front of `into`, and says how many. None at
    /// all means that none is left, if `into` has room for one.
    fn read(&mut self, into: &mut [u8]) -> Result<usize, Failed>
        ensures within { ReadsAtMost result into.new }
        ensures bytes { ReadConsumes (left self.old) (left self.new) result into.new }
        ensures unread { OnErr result (left self.new ≡ left self.old) }

        ensures held { (n : List ℕ) → held self.new n ≡ held self.old n }
        ensures admits { (n : List ℕ) → admits self.old n ↔ admits self.new n }
        ensures cause { HasCause (faults self.old) (faults self.new) result };
}

/// A place to write bytes to, one after the other.
pub trait Sink {
    /// The bytes that were taken so far, None where they are not told.
    ghost taken: { Self → Option (List ℕ) };

    /// How often a call failed.
    ghost faults: { Self → ℕ };

    /// Takes some bytes from the front of the piece, at least one of a piece that is not empty, and
    /// says how many.
    fn write(&mut self, piece: &[u8]) -> Result<usize, Failed>
        ensures count { IfOk result (λ n. Takes n (length piece.now)) }
        ensures bytes { WriteAppends (taken self.old) (taken self.new) result piece.now }
        ensures untaken { OnErr result (taken self.new ≡ taken self.old) }
        ensures empty { piece.now ≡ [] → result ≡ Ok 0 }

        ensures cause { HasCause (faults self.old) (faults self.new) result };
}
