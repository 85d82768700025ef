//! Control sequences, and the foreign letters among them.

ghost use Rattle.std.specs.Prelude.{◌≡◌, ◌≤◌, length, drop, take};
ghost use Rattle.bt_text.specs.ByteTests.{is_letter};
ghost use Rattle.bt_text.specs.NameList.{is_among};
ghost use Rattle.bt_text.specs.Special.{control_gap, control_name, is_foreign, letters_of, without_large_form};
ghost use Rattle.std.specs.List.{prefix_len};

use crate::byte_tests::is_letter;
use crate::white::white_run;

fn letters_len(text: &[u8]) -> usize
    ensures within { result ≤ length text.now }
    ensures len { result ≡ prefix_len is_letter text.now }
{
    text.iter().take_while(|byte| is_letter(**byte)).count()
}

/// How many bytes the name of the control sequence has whose backslash stands before the text.
pub fn control_name_len(text: &[u8]) -> usize
    ensures within { result ≤ length text.now }
    ensures name { control_name text.now ≡ take result text.now }
    ensures len { result ≡ length (control_name text.now) }
{
    match text {
        [] => 0,
        [b'{' | b'}', ..] => 0,
        [first, ..] => {
            if is_letter(*first) {
                letters_len(text)
            } else {
                1
            }
        }
    }
}

/// Whether a control sequence is a foreign letter.
pub fn is_foreign(name: &[u8]) -> bool
    ensures { result ≡ is_foreign name.now }
{
    matches!(
        name,
        b"oe"
            | b"OE"
            | b"ae"
            | b"AE"
            | b"ss"
            | b"i"
            | b"j"
            | b"o"
            | b"O"
            | b"l"
            | b"L"
            | b"aa"
            | b"AA"
    )
}

/// The name of the control sequence whose backslash stands before the text, the white space after it, and what
/// follows.
pub fn control_parts(text: &[u8]) -> (&[u8], &[u8], &[u8])
    ensures name { result.0.now ≡ control_name text.now }
    ensures gap { result.1.now ≡ control_gap text.now }
    ensures behind { result.2.now
        ≡ drop (length (control_gap text.now)) (drop (length (control_name text.now)) text.now) }
    ensures shorter { length result.2.now ≤ length text.now }
{
    let (name, after) = text.split_at(control_name_len(text));
    let (gap, behind) = after.split_at(white_run(after));
    (name, gap, behind)
}

/// Whether a foreign letter has no large form.
pub fn is_without_large_form(name: &[u8]) -> bool
    ensures { result ≡ is_among without_large_form name.now }
{
    matches!(name, b"i" | b"j" | b"ss")
}

/// The letters that `purify$` keeps of a control sequence, by its name.
pub fn letters_of(name: &[u8]) -> &[u8]
    ensures { result.now ≡ letters_of name.now }
{
    match name {
        b"oe" | b"OE" | b"ae" | b"AE" | b"ss" => name,
        b"i" | b"j" | b"o" | b"O" | b"l" | b"L" | b"aa" | b"AA" => &name[..1],
        _ => &[],
    }
}
