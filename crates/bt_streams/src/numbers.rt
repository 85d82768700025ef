//! Numbers in lines of a protocol.

ghost use Rattle.std.specs.Prelude.{◌≡◌};
ghost use Rattle.bt_streams.specs.Numbers.{number_of};

/// The number that a word of 1 to 10 digits writes; nothing for any other word.
pub fn number(word: &[u8]) -> Option<usize>
    ensures { result ≡ number_of word.now }
{
    if word.is_empty() || word.len() > 10 {
        return None;
    }
    let mut value = 0;
    'digits: for byte in word {
        if !byte.is_ascii_digit() {
            return None;
        }
        value = value * 10 + (*byte - b'0') as usize;
    }
    Some(value)
}
