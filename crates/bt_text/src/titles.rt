//! The case of a title.
//!
//! A title spares its first letter, and one after white space with a colon before it. So most of it is lowered in runs,
//! each up to the next colon. Only the beginning and what follows a colon are handled byte by byte.

ghost use Rattle.std.specs.Prelude.{◌≡◌, ◌≢◌, false, ◌<◌, ◌-◌, ◌≤◌, take, slice_index, ◌++◌, if◌then◌else◌, OnOk, IfOk, length, fold};
ghost use Rattle.bt_text.specs.declared.modes.Mode.TheVariants.{Title};
ghost use Rattle.bt_text.specs.CaseChange.{changed_block, changed_case};
ghost use Rattle.bt_text.specs.inner.TitlePlace.{is_spared_at, next_place};
ghost use Rattle.bt_text.specs.inner.Titles.{IsQuiet, place_of, quiet_place, title_run};

use crate::blocks::block_len;
use crate::byte_tests::is_white;
use crate::case_change::{push_block, push_changed};
use crate::modes::Mode;
use crate::runs::run_len;
use memchr::memchr;
use std::alloc::AllocError;

/// What decides whether the letter at a place of a title is spared.
#[derive(Clone, Copy)]
pub struct Place {
    is_first: bool,
    follows_white: bool,
    follows_colon: bool,
}

impl Place {
    ghost use Rattle.std.specs.Prelude.{◌≡◌, ◌<◌, fold, length};
    ghost use Rattle.bt_text.specs.declared.modes.Mode.TheVariants.{Title};
    ghost use Rattle.bt_text.specs.inner.TitlePlace.{is_spared_at, next_place, title_place_after};
    ghost use Rattle.bt_text.specs.inner.Titles.{place_of};

    /// Whether a letter or a group here is spared.
    fn is_spared(self) -> bool
        ensures { result ≡ is_spared_at Title (place_of self) }
    {
        self.is_first || self.follows_white && self.follows_colon
    }

    /// The place after a byte.
    fn behind(self, byte: u8) -> Self
        ensures { place_of result ≡ next_place (place_of self) byte }
    {
        let is_white = is_white(byte);
        Place {
            is_first: false,
            follows_white: is_white,
            follows_colon: if is_white {
                self.follows_colon
            } else {
                byte == b':'
            },
        }
    }

    /// The place after some bytes.
    fn after_all(self, bytes: &[u8]) -> Self
        ensures { place_of result ≡ fold next_place (place_of self) bytes.now }
    {
        let mut place = self;
        'bytes: for byte in bytes {
            place = place.behind(*byte);
        }
        place
    }

    /// The place after a block. Most groups end in their right brace, and then nothing else counts.
    #[tactic(auto, using(crate::proofs::QuietLemmas::closed_place))]
    fn behind_block(self, block: &[u8]) -> Self
        requires { 0 < length block.now }
        ensures { place_of result ≡ fold next_place (place_of self) block.now }
    {
        if block[block.len() - 1] == b'}' {
            Place {
                is_first: false,
                follows_white: false,
                follows_colon: false,
            }
        } else {
            self.after_all(block)
        }
    }
}

/// How many bytes stand before the first colon.
#[tactic(auto, using(crate::proofs::QuietLemmas::quiet_of, crate::proofs::QuietLemmas::quiet_within, crate::proofs::QuietLemmas::quiet_some))]
fn quiet_len(text: &[u8]) -> usize
    ensures within { result ≤ length text.now }
    ensures quiet { IsQuiet (take result text.now) }
    ensures some { slice_index text.now 0 ≢ 58 → 0 < length text.now → 0 < result }
{
    memchr(b':', text).unwrap_or(text.len())
}

/// The place after some bytes without a colon.
fn place_after_quiet(quiet: &[u8]) -> Place
    requires { 0 < length quiet.now }
    ensures { place_of result ≡ quiet_place (slice_index quiet.now (length quiet.now - 1)) }
{
    Place {
        is_first: false,
        follows_white: is_white(quiet[quiet.len() - 1]),
        follows_colon: false,
    }
}

/// Whether a byte has to be looked at singly: it, or what comes after it, may be spared.
fn wants_care(place: Place, byte: u8) -> bool
    ensures first { result ≡ false → place.is_first ≡ false }
    ensures colon { result ≡ false → place.follows_colon ≡ false }
    ensures byte { result ≡ false → byte ≢ 58 }
{
    place.is_first || place.follows_colon || byte == b':'
}

/// Appends a run of bytes outside groups to `out`, in the case of a title: byte by byte at the beginning and after a
/// colon, otherwise all up to the next colon at once.
fn push_title_run(out: &mut Vec<u8>, place: Place, text: &[u8]) -> Result<Place, AllocError>
    ensures run { OnOk result (out.new.items ≡ out.old.items ++ title_run (place_of place) text.now) }
    ensures place { IfOk result (λ after. place_of after ≡ fold next_place (place_of place) text.now) }
{
    let mut place = place;
    let mut rest = text;
    'walk: while let [first, behind @ ..] = rest {
        if wants_care(place, *first) {
            let byte = if place.is_spared() {
                *first
            } else {
                first.to_ascii_lowercase()
            };
            out.push(byte)?;
            place = place.behind(*first);
            rest = behind;
        } else {
            let (quiet, after) = rest.split_at(quiet_len(rest));
            push_changed(out, Mode::Title, quiet)?;
            place = place_after_quiet(quiet);
            rest = after;
        }
    }
    Ok(place)
}

/// Appends a block to `out`, unchanged if it is spared.
fn push_part(out: &mut Vec<u8>, place: Place, block: &[u8]) -> Result<(), AllocError>
    ensures { OnOk result (out.new.items ≡ out.old.items
        ++ (if is_spared_at Title (place_of place) then block.now else changed_block Title block.now)) }
{
    if place.is_spared() {
        out.extend_from_slice(block)
    } else {
        push_block(out, Mode::Title, block)
    }
}

/// Appends a text to `out` in the case of a title.
pub fn push_title(out: &mut Vec<u8>, text: &[u8]) -> Result<(), AllocError>
    ensures { OnOk result (out.new.items ≡ out.old.items ++ changed_case Title text.now) }
{
    let mut place = Place {
        is_first: true,
        follows_white: false,
        follows_colon: false,
    };
    let mut rest = text;
    'walk: while let [first, ..] = rest {
        if *first == b'{' {
            let (block, behind) = rest.split_at(block_len(rest));
            push_part(out, place, block)?;
            place = place.behind_block(block);
            rest = behind;
        } else {
            let (run, behind) = rest.split_at(run_len(rest));
            place = push_title_run(out, place, run)?;
            rest = behind;
        }
    }
    Ok(())
}
