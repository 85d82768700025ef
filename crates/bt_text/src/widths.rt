//! How wide a text is printed.

ghost use Rattle.std.specs.Prelude.{◌≡◌, ◌≤◌, ◌*◌, ◌<◌, length, sum_by};
ghost use Rattle.bt_text.specs.Pieces.{block_pieces};
ghost use Rattle.bt_text.specs.Special.{plain, symbols};
ghost use Rattle.bt_text.specs.Widths.{byte_width, control_width, piece_width, symbol_width, width_of};

use crate::blocks::{begins_special, block_len};
use crate::runs::run_len;
use crate::special::{control_parts, letters_of};

/// The width of each byte outside of control sequences. Only the bytes from 32, the space, to 126, the tie, have one.
const WIDTHS: [u16; 256] = [
    0, 0, 0, 0, 0, 0, 0, 0, 0, 0, 0, 0, 0, 0, 0, 0, 0, 0, 0, 0, 0, 0, 0, 0, 0, 0, 0, 0, 0, 0, 0, 0,
    278, 278, 500, 833, 500, 833, 778, 278, 389, 389, 500, 778, 278, 333, 278, 500, 500, 500, 500,
    500, 500, 500, 500, 500, 500, 500, 278, 278, 278, 778, 472, 472, 778, 750, 708, 722, 764, 681,
    653, 785, 750, 361, 514, 778, 625, 917, 750, 778, 681, 778, 736, 556, 722, 750, 750, 1028, 750,
    750, 611, 278, 500, 278, 500, 278, 278, 500, 556, 444, 556, 444, 306, 500, 556, 278, 306, 528,
    278, 833, 556, 500, 556, 528, 392, 394, 389, 556, 528, 722, 528, 528, 444, 500, 1000, 500, 500,
    0, 0, 0, 0, 0, 0, 0, 0, 0, 0, 0, 0, 0, 0, 0, 0, 0, 0, 0, 0, 0, 0, 0, 0, 0, 0, 0, 0, 0, 0, 0, 0,
    0, 0, 0, 0, 0, 0, 0, 0, 0, 0, 0, 0, 0, 0, 0, 0, 0, 0, 0, 0, 0, 0, 0, 0, 0, 0, 0, 0, 0, 0, 0, 0,
    0, 0, 0, 0, 0, 0, 0, 0, 0, 0, 0, 0, 0, 0, 0, 0, 0, 0, 0, 0, 0, 0, 0, 0, 0, 0, 0, 0, 0, 0, 0, 0,
    0, 0, 0, 0, 0, 0, 0, 0, 0, 0, 0, 0, 0, 0, 0, 0, 0, 0, 0, 0, 0, 0, 0, 0, 0, 0, 0, 0, 0, 0, 0, 0,
    0,
];

fn table_width(byte: u8) -> u16
    ensures { result ≡ byte_width byte }
{
    WIDTHS[usize::from(byte)]
}

/// The width of a byte outside of control sequences.
#[tactic(auto, using(crate::proofs::WidthLemmas::narrow))]
fn byte_width(byte: u8) -> u32
    ensures exact { result ≡ byte_width byte }
    ensures narrow { result ≤ 1028 }
{
    table_width(byte) as u32
}

fn control_width(name: &[u8]) -> u32
    ensures exact { result ≡ control_width name.now }
    ensures narrow { result ≤ 1028 }
{
    match name {
        b"ss" => 500,
        b"ae" => 722,
        b"oe" => 778,
        b"AE" => 903,
        b"OE" => 1014,
        _ => match letters_of(name) {
            [first] => byte_width(*first),
            _ => 0,
        },
    }
}

/// The width of a byte in a special character.
fn plain_width(byte: u8) -> u32
    ensures exact { result ≡ symbol_width (plain byte) }
    ensures narrow { result ≤ 1028 }
{
    if byte == b'{' || byte == b'}' {
        0
    } else {
        byte_width(byte)
    }
}

fn special_width(text: &[u8]) -> u32
    requires { length text.now ≤ 65536 }
    ensures exact { result ≡ sum_by symbol_width (symbols text.now) }
    ensures narrow { result ≤ 1028 * length text.now }
{
    let mut total = 0;
    let mut rest = text;
    while let [byte, behind @ ..] = rest {
        if *byte == b'\\' {
            let (name, _, after) = control_parts(behind);
            total += control_width(name);
            rest = after;
        } else {
            total += plain_width(*byte);
            rest = behind;
        }
    }
    total
}

/// The width of bytes outside special characters.
fn bytes_width(text: &[u8]) -> u32
    requires { length text.now ≤ 65536 }
    ensures exact { result ≡ sum_by byte_width text.now }
    ensures narrow { result ≤ 1028 * length text.now }
{
    let mut total = 0;
    for byte in text {
        total += byte_width(*byte);
    }
    total
}

#[tactic(auto, using(crate::proofs::WidthLemmas::group_width))]
fn group_width(block: &[u8]) -> u32
    requires { length block.now ≤ 65536 }
    ensures exact { result ≡ sum_by piece_width (block_pieces block.now) }
    ensures narrow { result ≤ 1028 * length block.now }
{
    if begins_special(block) {
        special_width(block)
    } else {
        bytes_width(block)
    }
}

/// The width of a text, by the table of widths. In special characters braces have none, and control sequences but for
/// the foreign ones have none.
#[tactic(auto, using(crate::proofs::WidthLemmas::run_width))]
pub fn width(text: &[u8]) -> u32
    requires { length text.now ≤ 65536 }
    ensures { result ≡ width_of text.now }
{
    let mut total = 0;
    let mut rest = text;
    'walk: while let [first, ..] = rest {
        if *first == b'{' {
            let (block, behind) = rest.split_at(block_len(rest));
            total += group_width(block);
            rest = behind;
        } else {
            let (run, behind) = rest.split_at(run_len(rest));
            total += bytes_width(run);
            rest = behind;
        }
    }
    total
}
