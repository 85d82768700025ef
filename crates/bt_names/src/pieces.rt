//! The pieces that a pattern is made of.

ghost use Rattle.std.specs.Prelude.{◌≡◌, None, drop};
ghost use Rattle.bt_text.specs.Blocks.{begins_group};
ghost use Rattle.bt_names.specs.declared.tokens.Parts.{Parts};
ghost use Rattle.bt_names.specs.Groups.{block_output, group_output, part_named, with_tokens};
ghost use Rattle.bt_names.specs.Patterns.{block_fault, letter_places};
ghost use Rattle.bt_names.specs.Spelling.{first_block, spelled};
ghost use Rattle.bt_names.specs.inner.Pieces.{piece_output};
ghost use Rattle.bt_names.specs.inner.Spelling.{form_of};

use crate::cuts::first_len;
use crate::patterns::{begins_group, inside, inside_sound, is_doubled_at, letter_end, next_letter};

/// What a group with a letter says.
#[derive(Clone, Copy)]
pub struct Part<'p> {
    pub letter: u8,
    /// Whether it stands for whole tokens, not for their initials.
    pub is_whole: bool,
    /// Whether a text of the group's own stands between tokens.
    pub has_own: bool,
    pub own: &'p [u8],
    pub before: &'p [u8],
    pub behind: &'p [u8],
}

/// A piece of a pattern: a block outside of groups, a group without a letter, or a group with one.
#[derive(Clone, Copy)]
pub enum Piece<'p> {
    Plain(&'p [u8]),
    Bare(&'p [u8]),
    Lettered(Part<'p>),
}

fn from_place(text: &[u8], start: usize) -> &[u8]
    ensures { result.now ≡ drop start text.now }
{
    text.get(start..).unwrap_or(&[])
}

fn first_block(text: &[u8]) -> &[u8]
    ensures { result.now ≡ first_block text.now }
{
    if text.is_empty() {
        text
    } else {
        let (block, _) = text.split_at(first_len(text));
        block
    }
}

/// A group with a letter, from what comes before the letter and after it.
#[tactic(auto, using(crate::proofs::PieceLemmas::spelled_map))]
fn part_of<'p>(letter: u8, is_whole: bool, before: &'p [u8], behind: &'p [u8]) -> Piece<'p>
    ensures { (parts : Parts) → piece_output parts result
        ≡ with_tokens before.now (form_of is_whole) (spelled (form_of is_whole) (part_named parts letter)) behind.now }
{
    let block = first_block(behind);
    if begins_group(block) {
        Piece::Lettered(Part {
            letter,
            is_whole,
            has_own: true,
            own: inside(block),
            before,
            behind: from_place(behind, block.len()),
        })
    } else {
        Piece::Lettered(Part {
            letter,
            is_whole,
            has_own: false,
            own: &[],
            before,
            behind,
        })
    }
}

/// A group, from what stands inside it.
fn group_of(text: &[u8]) -> Piece<'_>
    ensures { (parts : Parts) → piece_output parts result ≡ group_output parts text.now (letter_places text.now) }
{
    match next_letter(text, 0) {
        None => Piece::Bare(text),
        Some(place) => {
            let (before, _) = text.split_at(place);
            let (_, behind) = text.split_at(letter_end(text, place));
            part_of(text[place], is_doubled_at(text, place), before, behind)
        }
    }
}

/// A block of a pattern without a fault.
pub fn piece_of(block: &[u8]) -> Piece<'_>
    requires { block_fault block.now ≡ None }
    ensures { (parts : Parts) → piece_output parts result ≡ block_output parts block.now }
{
    if begins_group(block) {
        group_of(inside_sound(block))
    } else {
        Piece::Plain(block)
    }
}
