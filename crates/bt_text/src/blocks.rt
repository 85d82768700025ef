//! The blocks of a text: bytes outside of braces, and groups.

ghost use Rattle.std.specs.Prelude.{◌≡◌, ◌<◌, ◌≤◌, ◌∷◌, length, take, drop};
ghost use Rattle.bt_text.specs.Blocks.{begins_special, blocks};

use crate::depth::depth_after;

/// How many bytes the first block has.
pub fn block_len(text: &[u8]) -> usize
    requires { 0 < length text.now }
    ensures some { 0 < result }
    ensures within { result ≤ length text.now }
    ensures first { blocks text.now ≡ take result text.now ∷ blocks (drop result text.now) }
{
    let mut depth = 0;
    for (i, byte) in text.iter().enumerate() {
        depth = depth_after(depth, *byte);
        if depth == 0 {
            return i + 1;
        }
    }
    text.len()
}

/// Whether a text begins with a left brace and a backslash.
pub fn begins_special(text: &[u8]) -> bool
    ensures { result ≡ begins_special text.now }
{
    matches!(text, [b'{', b'\\', ..])
}
