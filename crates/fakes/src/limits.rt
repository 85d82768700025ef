//! How few bytes a source or a sink moves at once, and where it fails.

ghost use Rattle.std.specs.Prelude.{◌<◌, ◌≤◌};

/// How a source and a sink behave.
#[derive(Clone, Copy)]
pub struct Limits<'a> {
    /// At most how many bytes a read or a write moves; for 0, it moves one.
    pub most: usize,
    /// The place at which a read fails.
    pub read_fails: usize,
    /// The number of bytes after which a write fails.
    pub write_fails: usize,
    /// The places whose read notes how much was flushed by then.
    pub watched: &'a [usize],
}

impl Limits<'_> {
    /// No limits, and no watched places.
    pub fn none() -> Self {
        Limits {
            most: usize::MAX,
            read_fails: usize::MAX,
            write_fails: usize::MAX,
            watched: &[],
        }
    }

    /// The limits of a sink that fails after `room` bytes.
    pub fn writes_up_to(room: usize) -> Self {
        Limits {
            write_fails: room,
            ..Limits::none()
        }
    }

    /// How many bytes are moved if `wanted` could be: at least one, if any could.
    pub(crate) fn moved(self, wanted: usize) -> usize
        ensures few { result ≤ wanted }
        ensures some { 0 < wanted → 0 < result }
    {
        wanted.min(self.most.max(1))
    }
}
