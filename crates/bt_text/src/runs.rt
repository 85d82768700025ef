//! Runs of bytes outside of groups.

ghost use Rattle.std.specs.Prelude.{◌≡◌, ◌≢◌, ℕ, ◌<◌, ◌≤◌, ◌+◌, ◌++◌, length, take, drop, map, slice_index};
ghost use Rattle.bt_text.specs.Blocks.{blocks};
ghost use Rattle.bt_text.specs.Length.{text_length_of};
ghost use Rattle.bt_text.specs.Pieces.{other, pieces};
ghost use Rattle.bt_text.specs.inner.Runs.{alone};

use memchr::{memchr, memchr2};

/// How many bytes stand before the first left brace. Each of them is a block of its own, a right brace too.
#[tactic(auto, using(crate::proofs::RunLemmas::run_of, crate::proofs::RunLemmas::run_within, crate::proofs::RunLemmas::run_some))]
pub fn run_len(text: &[u8]) -> usize
    ensures within { result ≤ length text.now }
    ensures cut { blocks text.now ≡ alone (take result text.now) ++ blocks (drop result text.now) }
    ensures some { slice_index text.now 0 ≢ 123 → 0 < length text.now → 0 < result }
{
    memchr(b'{', text).unwrap_or(text.len())
}

/// How many bytes stand before the first brace. Each of them is a text character.
#[tactic(auto, using(crate::proofs::RunLemmas::bare_of, crate::proofs::RunLemmas::bare_within, crate::proofs::RunLemmas::bare_pieces))]
pub fn bare_len(text: &[u8]) -> usize
    ensures within { result ≤ length text.now }
    ensures characters { text_length_of text.now ≡ result + text_length_of (drop result text.now) }
    ensures pieces { (k : ℕ) → k ≤ result → pieces text.now ≡ map other (take k text.now) ++ pieces (drop k text.now) }
{
    memchr2(b'{', b'}', text).unwrap_or(text.len())
}
