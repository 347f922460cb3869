//! The outside of a run: where bytes are taken from, where they are put, and files by name.
//!
//! What a source has left, what a sink holds and what a file holds is told by an implementation
//! that knows it, and is `None` where it doesn't. A count of faults says when a call failed.
ghost use Rattle.std.specs.Prelude.{◌≡◌, ◌≢◌, ◌<◌, ℕ, List, length, take, IfOk, OnOk, Option};
ghost use Rattle.std.specs.Io.{ReadsAtMost, WritesAtMost};
ghost use Rattle.std.specs.Io.KnownBytes.{ReadConsumes, WriteAppends};
ghost use Rattle.outside.specs.Causes.{HasCause, HasCauseIf};
ghost use Rattle.outside.specs.FileTold.{ReadsFile, ToldAs, IsMissing};

/// A call on a source, a sink or files failed, and was counted.
#[derive(Clone, Copy, PartialEq, Eq, Drop)]
pub struct Failed;

/// Where bytes come from.
pub trait Source {
    // The bytes that are left, where they are known.
    ghost left: { Self → Option (List ℕ) };

    // How many calls failed.
    ghost faults: { Self → ℕ };

    /// Fills the front of the buffer with the next bytes, and answers their number: 0 exactly at
    /// the end. After `Failed` what is left is as before.
    fn take(&mut self, buf: &mut [u8]) -> Result<usize, Failed>
        requires { 0 < length buf.old }
        ensures bound { ReadsAtMost result buf.new }
        ensures bytes { ReadConsumes (left self.old) (left self.new) result buf.new }
        ensures cause { HasCause (faults self.old) (faults self.new) result };
}

/// Where bytes go.
pub trait Sink {
    // The bytes that it holds, where they are known.
    ghost held: { Self → Option (List ℕ) };

    // How many calls failed.
    ghost faults: { Self → ℕ };

    /// Adds the answered number of first bytes to what is held. For bytes that aren't empty the
    /// number isn't 0. After `Failed` the sink holds what it held.
    fn put(&mut self, bytes: &[u8]) -> Result<usize, Failed>
        ensures bound { WritesAtMost result bytes.now }
        ensures some { IfOk result (λ count. 0 < length bytes.now → 0 < count) }
        ensures bytes { WriteAppends (held self.old) (held self.new) result bytes.now }
        ensures cause { HasCause (faults self.old) (faults self.new) result };
}

/// Named files.
pub trait Files {
    // What is known of a name: nothing at `None`; that there is no such file at `Some None`.
    ghost told: { Self → List ℕ → Option (Option (List ℕ)) };

    // How many calls failed.
    ghost faults: { Self → ℕ };

    // How many of them failed because the name wasn't there.
    ghost missing: { Self → ℕ };

    /// Fills the front of the buffer with the bytes of a file from an offset on, and answers their
    /// number: 0 exactly at or past the end. No file changes.
    fn read_at(&mut self, name: &str, offset: u64, buf: &mut [u8]) -> Result<usize, Failed>
        requires { 0 < length buf.old }
        ensures bound { ReadsAtMost result buf.new }
        ensures bytes { IfOk result (λ n. ReadsFile (told self.old name.now) offset
            (take n buf.new)) }
        ensures same { (file : List ℕ) → told self.new file ≡ told self.old file }
        ensures cause { HasCause (faults self.old) (faults self.new) result }
        ensures absent { HasCauseIf (IsMissing (told self.old name.now)) (missing self.old)
            (missing self.new) result };

    /// Makes a file hold exactly the bytes. After `Failed` nothing is known of that file. No other
    /// file changes.
    fn replace(&mut self, name: &str, bytes: &[u8]) -> Result<(), Failed>
        ensures ok { OnOk result (ToldAs (told self.new name.now) bytes.now) }
        ensures others { (file : List ℕ) → file ≢ name.now
            → told self.new file ≡ told self.old file }
        ensures cause { HasCause (faults self.old) (faults self.new) result }
        ensures missing { missing self.new ≡ missing self.old };
}
