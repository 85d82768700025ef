//! Writes answers to a sink.

ghost use Rattle.std.specs.Prelude.{◌-◌, ◌^◌, ◌<◌};
ghost use Rattle.std.specs.List.{flat_map};
ghost use Rattle.bt_streams.specs.Writes.{Writes, Says};

use crate::streams::{Sink, StreamFailed};

/// Writes all the bytes, and doesn't flush. After a failure only a prefix of them is written.
pub fn write_all<K: Sink>(sink: &mut K, bytes: &[u8]) -> Result<(), StreamFailed>
    requires { (K.seen sink.old).failures < 2 ^ 64 - 1 }
    ensures { Writes (K.seen sink.old) (K.seen sink.new) bytes.now result }
{
    let mut written = 0;
    'writes: while written < bytes.len() {
        written += sink.write(&bytes[written..])?;
    }
    Ok(())
}

fn write_pieces<K: Sink>(sink: &mut K, pieces: &[&[u8]]) -> Result<(), StreamFailed>
    requires { (K.seen sink.old).failures < 2 ^ 64 - 1 }
    ensures { Writes (K.seen sink.old) (K.seen sink.new) (flat_map (λ piece. piece.now) pieces.now) result }
{
    'each: for piece in pieces {
        write_all(sink, piece)?;
    }
    Ok(())
}

/// Writes the pieces of an answer one after another, and flushes. After a failure only a prefix of them may be written.
#[tactic(auto, using(crate::proofs::WriteLemmas::handed_on))]
pub fn say<K: Sink>(sink: &mut K, pieces: &[&[u8]]) -> Result<(), StreamFailed>
    requires { (K.seen sink.old).failures < 2 ^ 64 - 1 }
    ensures { Says (K.seen sink.old) (K.seen sink.new) (flat_map (λ piece. piece.now) pieces.now) result }
{
    write_pieces(sink, pieces)?;
    sink.flush()
}
