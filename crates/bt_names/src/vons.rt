//! Which tokens are von tokens.

ghost use Rattle.std.specs.Prelude.{◌≡◌, ◌∷◌};
ghost use Rattle.bt_text.specs.ByteTests.{backslash, is_small, left_brace};
ghost use Rattle.bt_names.specs.Vons.{begins_small, is_cased, is_von, is_von_text, special_is_small, verdict_of};

use crate::cuts::first_len;
use crate::lent_tokens::LentToken;
use bt_text::{control_name_len, is_foreign};

fn is_cased(byte: u8) -> bool
    ensures { result ≡ is_cased byte }
{
    matches!(byte, b'a'..=b'z' | b'A'..=b'Z')
}

fn is_small(byte: u8) -> bool
    ensures { result ≡ is_small byte }
{
    matches!(byte, b'a'..=b'z')
}

/// Whether the first letter with a case is a small one.
fn begins_small(text: &[u8]) -> bool
    ensures { result ≡ begins_small text.now }
{
    let mut rest = text;
    'walk: while let [first, behind @ ..] = rest {
        if is_cased(*first) {
            return is_small(*first);
        }
        rest = behind;
    }
    false
}

/// Whether a special character is judged as small, by what stands after its backslash.
fn control_is_small(text: &[u8]) -> bool
    ensures { result ≡ special_is_small (left_brace ∷ backslash ∷ text.now) }
{
    let (name, behind) = text.split_at(control_name_len(text));
    if is_foreign(name) {
        begins_small(name)
    } else {
        begins_small(behind)
    }
}

fn verdict(block: &[u8]) -> Option<bool>
    ensures { result ≡ verdict_of block.now }
{
    match block {
        [b'{', b'\\', text @ ..] => Some(control_is_small(text)),
        [byte] => {
            if is_cased(*byte) {
                Some(is_small(*byte))
            } else {
                None
            }
        }
        _ => None,
    }
}

fn is_von_text(text: &[u8]) -> bool
    ensures { result ≡ is_von_text text.now }
{
    let mut rest = text;
    'walk: while !rest.is_empty() {
        let (block, behind) = rest.split_at(first_len(rest));
        if let Some(is_small) = verdict(block) {
            return is_small;
        }
        rest = behind;
    }
    false
}

/// Whether a token is a von token.
pub fn is_von(token: &LentToken) -> bool
    ensures { result ≡ is_von token.now }
{
    is_von_text(token.text())
}
