//! What writing after a held line gives.

use crate::bytes::Bytes;
use crate::sequence::Sequence;

/// The lines that are written, and what is held then.
#[derive(Drop)]
pub struct Output {
    pub lines: Sequence<Bytes>,
    pub held: Bytes,
}
