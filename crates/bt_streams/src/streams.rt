//! What commands are read from, and what answers are written to.

ghost use Rattle.std.specs.Prelude.{◌≡◌, true, false, ◌+◌, ◌-◌, ◌^◌, ◌<◌, ◌≤◌, length, IfOk, OnOk, OnErr, IsErr};
ghost use Rattle.std.specs.Io.KnownBytes.{ReadConsumes, WriteAppends, Keeps};
ghost use Rattle.bt_streams.specs.Seen.{Drawn, Sunk};

use thiserror::Error;

/// A read or a write that failed.
#[derive(Clone, Copy, Debug, PartialEq, Eq, Error)]
#[error("Failed")]
pub struct StreamFailed;

/// What bytes are read from.
pub trait Source {
    /// What contracts see of it: the bytes that it has left, its failures, the reads that are left.
    ghost seen: { Self → Drawn };

    /// Reads bytes into the buffer, and returns how many; 0 at the end. Each read takes one of the reads that are left;
    /// if none is left, a read fails. A read that fails gives no byte, and counts as one more failure.
    fn read(&mut self, buffer: &mut [u8]) -> Result<usize, StreamFailed>
        requires { (seen self.old).failures < 2 ^ 64 - 1 }
        ensures bound { IfOk result (λ n. n ≤ length buffer.new) }
        ensures bytes { ReadConsumes (seen self.old).rest (seen self.new).rest result buffer.new }
        ensures lowers { (seen self.new).reads_left ≡ (seen self.old).reads_left - 1 }
        ensures spent { (seen self.old).reads_left ≡ 0 → IsErr result }
        ensures ok { OnOk result ((seen self.new).failures ≡ (seen self.old).failures) }
        ensures err { OnErr result ((seen self.new).failures ≡ (seen self.old).failures + 1) };

    /// How often it failed so far.
    fn failures(&self) -> u64
        ensures { result ≡ (seen self.now).failures };

    /// How many reads are left.
    fn left(&self) -> u64
        ensures { result ≡ (seen self.now).reads_left };
}

/// What bytes are written to.
pub trait Sink {
    /// What contracts see of it: the bytes that were written to it, its failures, whether all was flushed.
    ghost seen: { Self → Sunk };

    /// Writes some of the bytes, and returns how many. Writing none is a failure. A write that fails counts as one more
    /// failure.
    fn write(&mut self, bytes: &[u8]) -> Result<usize, StreamFailed>
        requires { (seen self.old).failures < 2 ^ 64 - 1 }
        ensures some { IfOk result (λ n. 0 < n) }
        ensures bound { IfOk result (λ n. n ≤ length bytes.now) }
        ensures bytes { WriteAppends (seen self.old).contents (seen self.new).contents result bytes.now }
        ensures held { (seen self.new).is_flushed ≡ false }
        ensures ok { OnOk result ((seen self.new).failures ≡ (seen self.old).failures) }
        ensures err { OnErr result ((seen self.new).failures ≡ (seen self.old).failures + 1) };

    /// Flushes what was written. After a failure, a part of it may have been flushed.
    fn flush(&mut self) -> Result<(), StreamFailed>
        requires { (seen self.old).failures < 2 ^ 64 - 1 }
        ensures bytes { Keeps (seen self.old).contents (seen self.new).contents }
        ensures flushed { OnOk result ((seen self.new).is_flushed ≡ true) }
        ensures ok { OnOk result ((seen self.new).failures ≡ (seen self.old).failures) }
        ensures err { OnErr result ((seen self.new).failures ≡ (seen self.old).failures + 1) };

    /// How often it failed so far.
    fn failures(&self) -> u64
        ensures { result ≡ (seen self.now).failures };
}
