//! The number of text characters.

ghost use Rattle.std.specs.Prelude.{◌≡◌, ◌≤◌, length, count_by};
ghost use Rattle.bt_text.specs.Length.{text_length_of};
ghost use Rattle.bt_text.specs.Pieces.{is_character, block_pieces};

use crate::blocks::{begins_special, block_len};
use crate::runs::bare_len;

/// How many text characters a block has.
pub fn block_characters(block: &[u8]) -> usize
    ensures count { result ≡ count_by is_character (block_pieces block.now) }
    ensures few { result ≤ length block.now }
{
    if begins_special(block) {
        1
    } else {
        block
            .iter()
            .filter(|byte| **byte != b'{' && **byte != b'}')
            .count()
    }
}

/// How many text characters a text has: special characters, and bytes outside of these that are no braces.
pub fn text_length(text: &[u8]) -> usize
    ensures { result ≡ text_length_of text.now }
{
    let mut count = 0;
    let mut rest = text;
    'walk: while !rest.is_empty() {
        let bare = bare_len(rest);
        if 0 < bare {
            count += bare;
            let (_, behind) = rest.split_at(bare);
            rest = behind;
        } else {
            let (block, behind) = rest.split_at(block_len(rest));
            count += block_characters(block);
            rest = behind;
        }
    }
    count
}
