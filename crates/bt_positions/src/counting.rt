//! The units that an editor counts.

ghost use Rattle.std.specs.Prelude.{◌≡◌, ◌≤◌, ◌<◌, ◌*◌, ◌^◌, length};
ghost use Rattle.bt_positions.specs.Units.{units, width, fitting};
ghost use Rattle.bt_positions.specs.Lines.{first_line};

/// The units that an editor counts in a text: bytes of UTF-8, or units of UTF-16. For a text in Latin-1 these are the
/// bytes or units of the same characters in the editor's encoding.
#[derive(Clone, Copy, Debug, PartialEq, Eq)]
pub enum Counting {
    Utf8,
    Utf16,
    LatinAsUtf8,
    LatinAsUtf16,
}

/// The units of a byte. In UTF-16 the first byte of a character has the units of the whole character, and its other
/// bytes have none.
fn units(counting: Counting, byte: u8) -> usize
    ensures value { result ≡ units counting byte }
    ensures few { result ≤ 2 }
{
    match counting {
        Counting::Utf8 | Counting::LatinAsUtf16 => 1,
        Counting::LatinAsUtf8 => { if byte < 128 { 1 } else { 2 } }
        Counting::Utf16 => {
            if byte < 128 {
                1
            } else if byte < 192 {
                0
            } else if byte < 240 {
                1
            } else {
                2
            }
        }
    }
}

/// The units of a text, counted byte by byte.
fn counted_width(counting: Counting, bytes: &[u8]) -> usize
    requires { 2 * length bytes.now < 2 ^ 64 }
    ensures { result ≡ width counting bytes.now }
{
    let mut count = 0;
    let mut rest = bytes;
    'bytes: while let [first, others @ ..] = rest {
        count += units(counting, *first);
        rest = others;
    }
    count
}

/// The units of a text.
pub fn width(counting: Counting, bytes: &[u8]) -> usize
    requires { 2 * length bytes.now < 2 ^ 64 }
    ensures { result ≡ width counting bytes.now }
{
    match counting {
        Counting::Utf8 | Counting::LatinAsUtf16 => bytes.len(),
        Counting::Utf16 | Counting::LatinAsUtf8 => counted_width(counting, bytes),
    }
}

/// How many bytes of a text's first line precede a character: as many as fit into that many units.
pub fn fitting(counting: Counting, character: usize, text: &[u8]) -> usize
    ensures value { result ≡ fitting counting character (first_line text.now) }
    ensures within { result ≤ length text.now }
{
    let mut left = character;
    let mut place = 0;
    let mut rest = text;
    'bytes: while let [first, others @ ..] = rest {
        let width = units(counting, *first);
        if *first == b'\n' || *first == b'\r' || width > left {
            return place;
        }
        left -= width;
        place += 1;
        rest = others;
    }
    place
}
