//! Messages in frames, as the Language Server Protocol has them: a header that gives the length of the body, an empty
//! line, and the body.
#![tactic(auto)]

mod framing;
mod headers;

pub use framing::{BODY_BYTES, Frame, frame_head, read_frame};
