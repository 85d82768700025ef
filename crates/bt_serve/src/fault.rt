//! Why the loop ends before its input does.

ghost use Rattle.std.specs.Prelude.{◌≡◌};
ghost use Rattle.bt_serve.specs.Faults.{number_of_fault};

use thiserror::Error;

/// Why the loop ended before its input did.
#[derive(Clone, Copy, Debug, PartialEq, Eq, Error)]
#[error("{:?}", self)]
pub enum ServeFault {
    /// A read failed. The commands that were read completely are carried out and answered.
    ReadFailed,
    /// A write failed. The command that it answered is carried out.
    WriteFailed,
    /// The input ended inside the bytes of a command, which isn't carried out.
    Truncated,
}

impl ServeFault {
    /// 1 for a read that failed, 2 for a write that failed, 3 for an input that was cut short.
    pub fn number(self) -> u8
        ensures { result ≡ number_of_fault self }
    {
        match self {
            ServeFault::ReadFailed => 1,
            ServeFault::WriteFailed => 2,
            ServeFault::Truncated => 3,
        }
    }
}
