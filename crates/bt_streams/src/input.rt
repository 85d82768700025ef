//! Reads lines and counted bytes from a source.

ghost use Rattle.std.specs.Prelude.{◌≡◌, ◌+◌, ◌-◌, ◌^◌, ◌<◌, ◌≤◌, length, IfOk, OnOk, OnErr, MatchResult};
ghost use Rattle.std.specs.Io.KnownBytes.{Keeps};
ghost use Rattle.bt_streams.specs.Reads.{ReadsByte, ReadsLine, ReadsPart, SkipsLine, ReadsAll, ReadsBelow, DropsAll};

use crate::streams::{Source, StreamFailed};

/// How a line that was read ends.
#[derive(Clone, Copy)]
pub enum LineEnd {
    /// A line of this number of bytes, and a line feed.
    Feed(usize),
    /// A line of this number of bytes, and the end of the input.
    End(usize),
    /// More bytes than fit.
    None,
}

/// The next byte; nothing at the end.
fn read_byte<S: Source>(source: &mut S) -> Result<Option<u8>, StreamFailed>
    requires { (S.seen source.old).failures < 2 ^ 64 - 1 }
    ensures bytes { MatchResult result (ReadsByte (S.seen source.old).rest (S.seen source.new).rest)
        (λ _. Keeps (S.seen source.old).rest (S.seen source.new).rest) }
    ensures lowers { OnOk result ((S.seen source.new).reads_left < (S.seen source.old).reads_left) }
    ensures reads { (S.seen source.new).reads_left ≤ (S.seen source.old).reads_left }
    ensures ok { OnOk result ((S.seen source.new).failures ≡ (S.seen source.old).failures) }
    ensures err { OnErr result ((S.seen source.new).failures ≡ (S.seen source.old).failures + 1) }
{
    let mut byte = [0; 1];
    match source.read(&mut byte)? {
        0 => Ok(None),
        _ => Ok(Some(byte[0])),
    }
}

/// Reads a line into the buffer, without its line feed, and returns how it ends.
pub fn read_line<S: Source>(source: &mut S, buffer: &mut [u8]) -> Result<LineEnd, StreamFailed>
    requires { (S.seen source.old).failures < 2 ^ 64 - 1 }
    ensures line { IfOk result (ReadsLine (S.seen source.old).rest (S.seen source.new).rest buffer.new) }
    ensures part { OnErr result (ReadsPart (S.seen source.old).rest (S.seen source.new).rest) }
    ensures lowers { OnOk result (0 < length buffer.old →
        (S.seen source.new).reads_left < (S.seen source.old).reads_left) }
    ensures ok { OnOk result ((S.seen source.new).failures ≡ (S.seen source.old).failures) }
    ensures err { OnErr result ((S.seen source.new).failures ≡ (S.seen source.old).failures + 1) }
{
    'line: for i in 0..buffer.len() {
        match read_byte(source)? {
            None => return Ok(LineEnd::End(i)),
            Some(b'\n') => return Ok(LineEnd::Feed(i)),
            Some(byte) => buffer[i] = byte,
        }
    }
    Ok(LineEnd::None)
}

/// Reads up to the end of the line, and returns whether a line feed ends it.
pub fn skip_line<S: Source>(source: &mut S) -> Result<bool, StreamFailed>
    requires { (S.seen source.old).failures < 2 ^ 64 - 1 }
    ensures line { IfOk result (SkipsLine (S.seen source.old).rest (S.seen source.new).rest) }
    ensures part { OnErr result (ReadsPart (S.seen source.old).rest (S.seen source.new).rest) }
    ensures lowers { (S.seen source.new).reads_left ≤ (S.seen source.old).reads_left }
    ensures ok { OnOk result ((S.seen source.new).failures ≡ (S.seen source.old).failures) }
    ensures err { OnErr result ((S.seen source.new).failures ≡ (S.seen source.old).failures + 1) }
{
    'rest: while let Some(byte) = read_byte(source)? {
        if byte == b'\n' {
            return Ok(true);
        }
    }
    Ok(false)
}

/// Fills the buffer, and returns whether the input was long enough.
pub fn read_bytes<S: Source>(source: &mut S, buffer: &mut [u8]) -> Result<bool, StreamFailed>
    requires { (S.seen source.old).failures < 2 ^ 64 - 1 }
    ensures all { IfOk result (ReadsAll (S.seen source.old).rest (S.seen source.new).rest buffer.new) }
    ensures part { OnErr result (ReadsBelow (S.seen source.old).rest (S.seen source.new).rest (length buffer.old)) }
    ensures lowers { (S.seen source.new).reads_left ≤ (S.seen source.old).reads_left }
    ensures ok { OnOk result ((S.seen source.new).failures ≡ (S.seen source.old).failures) }
    ensures err { OnErr result ((S.seen source.new).failures ≡ (S.seen source.old).failures + 1) }
{
    let mut filled = 0;
    'pieces: while filled < buffer.len() {
        match source.read(&mut buffer[filled..])? {
            0 => return Ok(false),
            count => filled += count,
        }
    }
    Ok(true)
}

/// Reads `count` bytes and drops them, and returns whether the input was long enough.
pub fn drop_bytes<S: Source>(source: &mut S, count: usize) -> Result<bool, StreamFailed>
    requires { (S.seen source.old).failures < 2 ^ 64 - 1 }
    ensures all { IfOk result (DropsAll (S.seen source.old).rest (S.seen source.new).rest count) }
    ensures part { OnErr result (ReadsBelow (S.seen source.old).rest (S.seen source.new).rest count) }
    ensures lowers { (S.seen source.new).reads_left ≤ (S.seen source.old).reads_left }
    ensures ok { OnOk result ((S.seen source.new).failures ≡ (S.seen source.old).failures) }
    ensures err { OnErr result ((S.seen source.new).failures ≡ (S.seen source.old).failures + 1) }
{
    let mut buffer = [0; 1024];
    let mut to_drop = count;
    'pieces: while to_drop > 0 {
        let part = to_drop.min(1024);
        match source.read(&mut buffer[..part])? {
            0 => return Ok(false),
            count => to_drop -= count,
        }
    }
    Ok(true)
}
