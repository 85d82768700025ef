//! How deep in braces a place stands, and whether braces are balanced.

ghost use Rattle.std.specs.Prelude.{◌≡◌, ◌<◌, ◌↔◌, IsTrue};
ghost use Rattle.bt_text.specs.Depth.{IsBalanced, depth, depth_after};

/// The depth after a byte, if it is `depth` before it.
pub fn depth_after(depth: usize, byte: u8) -> usize
    requires { depth < usize.MAX }
    ensures { result ≡ depth_after depth byte }
{
    match byte {
        b'{' => depth + 1,
        b'}' => depth.saturating_sub(1),
        _ => depth,
    }
}

/// The depth after a text.
pub fn depth_of(text: &[u8]) -> usize
    ensures { result ≡ depth text.now }
{
    let mut depth = 0;
    for byte in text {
        depth = depth_after(depth, *byte);
    }
    depth
}

/// Whether each right brace has a left one before it, and each left one a right one after it.
#[tactic(auto, using(crate::proofs::BlockLemmas::depth_take))]
pub fn balanced(text: &[u8]) -> bool
    ensures { IsTrue result ↔ IsBalanced text.now }
{
    let mut depth = 0;
    for byte in text {
        if *byte == b'}' && depth == 0 {
            return false;
        }
        depth = depth_after(depth, *byte);
    }
    depth == 0
}
