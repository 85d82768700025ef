//! Reads frames from a source.

ghost use Rattle.bt_frames.specs.Frames.{body_bytes, ReadsHeader, ReadsFrame};
ghost use Rattle.bt_frames.specs.inner.Bodies.{IsEnded, ReadsBody};
ghost use Rattle.bt_frames.specs.Framed.{head_of};
ghost use Rattle.std.specs.String.{string_bytes};
ghost use Rattle.std.specs.Prelude.{◌≡◌, ◌+◌, ◌-◌, ◌^◌, ◌<◌, ◌≤◌, length, IfOk, OnOk, OnErr};

use crate::headers::{said_by, without_cr};
use bt_streams::{LineEnd, Source, StreamFailed, drop_bytes, read_bytes, read_line, skip_line};
use std::alloc::{AllocError, Global};

/// The most bytes of a body: 16 MiB, since a text of 1 MiB has up to six times as many bytes in JSON, and a message may
/// bring several changes.
pub const BODY_BYTES: usize = 16_777_216;

/// What is next in a source.
#[derive(Drop)]
pub enum Frame {
    /// A body.
    Body(Vec<u8>),
    /// A header that doesn't say how long the body is.
    NoLength,
    /// A body of more than `BODY_BYTES` bytes. It was read and dropped.
    TooLarge,
    /// A body for which memory ran out. It was read and dropped.
    NoMemory,
    /// The input ended between two frames.
    End,
    /// The input ended inside a frame.
    Cut,
}

/// What a header says.
enum Header {
    Length(Option<usize>),
    End,
    Cut,
}

/// What it means that the input ends after lines of a header, or none of them, and `count` bytes of a line.
fn ended(first: bool, count: usize) -> Header
    ensures { IsEnded first count result }
{
    if first && count == 0 {
        Header::End
    } else {
        Header::Cut
    }
}

/// Reads a header up to its empty line, and skips lines that say nothing of the length.
fn read_header<S: Source>(source: &mut S) -> Result<Header, StreamFailed>
    requires { (S.seen source.old).failures < 2 ^ 64 - 1 }
    ensures header { IfOk result (ReadsHeader (S.seen source.old).rest (S.seen source.new).rest) }
    ensures lowers { OnOk result ((S.seen source.new).reads_left < (S.seen source.old).reads_left) }
    ensures ok { OnOk result ((S.seen source.new).failures ≡ (S.seen source.old).failures) }
    ensures err { OnErr result ((S.seen source.new).failures ≡ (S.seen source.old).failures + 1) }
{
    let mut buffer = [0; 256];
    let mut length = None;
    let mut first = true;
    'lines: loop {
        match read_line(source, &mut buffer)? {
            LineEnd::Feed(n) => {
                let (line, _) = buffer.split_at(n);
                if without_cr(line).is_empty() {
                    return Ok(Header::Length(length));
                }
                length = said_by(length, line);
            }
            LineEnd::End(count) => return Ok(ended(first, count)),
            LineEnd::None => {
                if !skip_line(source)? {
                    return Ok(Header::Cut);
                }
            }
        }
        first = false;
    }
}

/// Drops a body that is too large, or for which there is no memory.
fn drop_body<S: Source>(source: &mut S, count: usize) -> Result<Frame, StreamFailed>
    requires { (S.seen source.old).failures < 2 ^ 64 - 1 }
    ensures body { IfOk result (ReadsBody (S.seen source.old).rest (S.seen source.new).rest count) }
    ensures lowers { (S.seen source.new).reads_left ≤ (S.seen source.old).reads_left }
    ensures ok { OnOk result ((S.seen source.new).failures ≡ (S.seen source.old).failures) }
    ensures err { OnErr result ((S.seen source.new).failures ≡ (S.seen source.old).failures + 1) }
{
    if !drop_bytes(source, count)? {
        Ok(Frame::Cut)
    } else if count > BODY_BYTES {
        Ok(Frame::TooLarge)
    } else {
        Ok(Frame::NoMemory)
    }
}

fn fill<S: Source>(source: &mut S, buffer: Vec<u8>) -> Result<Frame, StreamFailed>
    requires failures { (S.seen source.old).failures < 2 ^ 64 - 1 }
    requires fits { length buffer.items ≤ body_bytes }
    ensures body { IfOk result (ReadsBody (S.seen source.old).rest (S.seen source.new).rest (length buffer.items)) }
    ensures lowers { (S.seen source.new).reads_left ≤ (S.seen source.old).reads_left }
    ensures ok { OnOk result ((S.seen source.new).failures ≡ (S.seen source.old).failures) }
    ensures err { OnErr result ((S.seen source.new).failures ≡ (S.seen source.old).failures + 1) }
{
    let mut body = buffer;
    if read_bytes(source, &mut body)? {
        Ok(Frame::Body(body))
    } else {
        Ok(Frame::Cut)
    }
}

fn read_body<S: Source>(alloc: Global, source: &mut S, count: usize) -> Result<Frame, StreamFailed>
    requires { (S.seen source.old).failures < 2 ^ 64 - 1 }
    ensures body { IfOk result (ReadsBody (S.seen source.old).rest (S.seen source.new).rest count) }
    ensures lowers { (S.seen source.new).reads_left ≤ (S.seen source.old).reads_left }
    ensures ok { OnOk result ((S.seen source.new).failures ≡ (S.seen source.old).failures) }
    ensures err { OnErr result ((S.seen source.new).failures ≡ (S.seen source.old).failures + 1) }
{
    if count > BODY_BYTES {
        return drop_body(source, count);
    }
    match vec![in alloc; 0; count] {
        Ok(buffer) => fill(source, buffer),
        Err(_) => drop_body(source, count),
    }
}

/// Reads the next frame, and says what it holds. It fails only if a read does.
pub fn read_frame<S: Source>(alloc: Global, source: &mut S) -> Result<Frame, StreamFailed>
    requires { (S.seen source.old).failures < 2 ^ 64 - 1 }
    ensures frame { IfOk result (ReadsFrame (S.seen source.old).rest (S.seen source.new).rest) }
    ensures lowers { OnOk result ((S.seen source.new).reads_left < (S.seen source.old).reads_left) }
    ensures ok { OnOk result ((S.seen source.new).failures ≡ (S.seen source.old).failures) }
    ensures err { OnErr result ((S.seen source.new).failures ≡ (S.seen source.old).failures + 1) }
{
    match read_header(source)? {
        Header::Length(Some(count)) => {
            let frame = read_body(alloc, source, count)?;
            Ok(frame)
        }
        Header::Length(None) => Ok(Frame::NoLength),
        Header::End => Ok(Frame::End),
        Header::Cut => Ok(Frame::Cut),
    }
}

/// The header of a body of `count` bytes.
pub fn frame_head(alloc: Global, count: usize) -> Result<String, AllocError>
    ensures { IfOk result (λ head. string_bytes head ≡ head_of count) }
{
    format!(in alloc; "Content-Length: {count}\r\n\r\n")
}
