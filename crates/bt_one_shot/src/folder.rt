//! Where a job's files are read and written.

use bt_text::Bytes;

/// What a folder gives for a name.
#[derive(Drop)]
pub enum Found {
    /// The file's bytes, at most its first 1,048,577.
    Bytes(Bytes),
    /// There is no such file, or it can't be read.
    Missing,
    /// There was no room for its bytes.
    NoRoom,
}

/// A folder of files.
pub trait Folder {
    ghost use Rattle.std.specs.Prelude.{◌≡◌, ◌<◌, ◌-◌, ◌^◌};
    ghost use Rattle.bt_one_shot.specs.Folders.{Seen, Finds, IsWithin, LooksUp, WritesOne, looked_up};

    /// What contracts see of it, as far as it shows that: what it holds, and what was done with it so far.
    ghost seen: { Self → Seen };

    /// Looks up a file, and reads at most 1,048,577 bytes of it. Each look-up counts as a read, whatever is found.
    fn read(&mut self, name: &[u8]) -> Found
        ensures found { Finds (seen self.old).held name.now result }
        ensures within { IsWithin result }
        ensures looks_up { LooksUp (seen self.old) (seen self.new) 1 (looked_up name.now result) };

    /// Writes a file, and returns whether it succeeded. Each write that fails counts as one more failure.
    fn write(&mut self, name: &[u8], bytes: &[u8]) -> bool
        requires { (seen self.old).failures < 2 ^ 64 - 1 }
        ensures { WritesOne (seen self.old) (seen self.new) (record { name = name.now; bytes = bytes.now }) result };

    /// How many writes failed so far.
    fn failures(&self) -> u64
        ensures { result ≡ (seen self.now).failures };
}
