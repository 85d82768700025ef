//! Sources, from which commands are read, and sinks, to which answers are written: what each of their calls gives, even
//! if it fails; and the lines, counted bytes and numbers that protocols read from a source.
#![tactic(auto)]

mod input;
mod numbers;
mod output;
mod std_streams;
mod streams;

pub use input::{LineEnd, drop_bytes, read_bytes, read_line, skip_line};
pub use numbers::number;
pub use output::{say, write_all};
pub use std_streams::{Ahead, LooksAhead, ReaderSource, WriterSink};
pub use streams::{Sink, Source, StreamFailed};
